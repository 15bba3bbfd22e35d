// Examines a half: opens its blocks and reads the set (01, "The sealed half" and "When a call is turned
// down"). [SPEC 15.2, 15.3, 23.4, 23.7, 23.10, 23.11]
#![tactic(auto)]

ghost use Rattle.std.specs.Prelude.{◌≡◌, true, ◌&&◌, ◌+◌, ◌*◌, ◌/◌, ◌%◌, ◌^◌, ◌≤◌, eqb, leb, ltb, length, take};
ghost use Rattle.std.specs.Prelude.{OnOk, IfOk};
ghost use Rattle.base_words.specs.Bytes.{word_at, words_at};
ghost use Rattle.aead_seal.specs.Aead.{poly_key, opens};
ghost use Rattle.base_messages.specs.Messages.{wrong_length, wrong_number, unless};
ghost use Rattle.base_messages.specs.Refusals.{why_of};
ghost use Rattle.half_content.specs.Content.{block_bytes, text_bytes, most_blocks, part};
ghost use Rattle.half_seal.specs.Half.{header, text_in, block_fits, first_fit, opened_blocks, opened_content};
ghost use Rattle.half_seal.specs.Half.{set_number};
ghost use Rattle.half_seal.specs.Half.{whole_blocks, why_not_opened};
ghost use Rattle.half_open.specs.Examined.{examined, told, as_examined, as_told};

use base_messages::{NAME, Refusal};
use half_content::{BLOCK, MOST_BLOCKS, ROOM, Set, TAG_AT, TEXT};
use measure_table::Terms;

// kept: a sum of the two words that are loaded, which is plainer than eight bytes in a row.
fn joined(low: u32, high: u32) -> u64
    ensures { result ≡ low + high * 2 ^ 32 }
{
    low as u64 + high as u64 * 4294967296
}

// The set number in a block's first eight bytes.
// kept: two loads, where `from_le_bytes` would list eight bytes.
fn load_number(b: &[u8]) -> u64
    requires { 8 ≤ length b.now }
    ensures { result ≡ set_number b.now }
{
    joined(base_slices::load(b, 0), base_slices::load(b, 4))
}

// Whether a block's number and index are these. Its nonce is then the one that its one-time key was
// made for.
fn is_headed(b: &[u8], number: u64, i: u32) -> bool
    requires { 12 ≤ length b.now }
    ensures value { result ≡ eqb (word_at b.now 8) i && eqb (set_number b.now) number }
    ensures b_value { result ≡ true → words_at 3 (part 0 12 b.now) ≡ words_at 3 (header number i) }
{
    let low = base_slices::load(b, 0);
    let high = base_slices::load(b, 4);
    let index = base_slices::load(b, 8);
    (index == i) & (joined(low, high) == number)
}

// Whether the tag of block b fits; where it does, its text is opened into out. Its one-time key is at
// hand.
fn open_text(key: &[u8; 32], once: &[u8; 32], b: &[u8], out: &mut [u8]) -> bool
    requires b_len { (length b.now ≡ block_bytes) × (length out.old ≡ text_bytes) }
    requires once_value { once.now ≡ poly_key key.now (part 0 12 b.now) }
    ensures value { result ≡ opens key.now (part 0 12 b.now) (part 0 12 b.now)
        (part 12 text_bytes b.now) (part (12 + text_bytes) 16 b.now) }
    ensures out_after { result ≡ true → out.new ≡ text_in key.now b.now }
{
    let mut nonce = [0u8; 12];
    base_slices::copy(&mut nonce, 0, &b[0..12]);
    let aad = nonce;
    let mut tag = [0u8; 16];
    base_slices::copy(&mut tag, 0, &b[TAG_AT..BLOCK]);
    base_slices::copy(out, 0, &b[12..TAG_AT]);
    aead_seal::open_by(key, once, &nonce, &aad, out, &tag)
}

// Whether b is block i of the set; where it is, its text is opened into out. `once` is that block's
// one-time key.
fn open_block(
    key: &[u8; 32],
    once: &[u8; 32],
    number: u64,
    i: u32,
    b: &[u8],
    out: &mut [u8],
) -> bool
    requires b_len { (length b.now ≡ block_bytes) × (length out.old ≡ text_bytes) }
    requires once_value { once.now ≡ poly_key key.now (header number i) }
    ensures value { result ≡ block_fits key.now number i b.now }
    ensures out_after { result ≡ true → out.new ≡ text_in key.now b.now }
{
    if !is_headed(b, number, i) {
        return false;
    }
    open_text(key, once, b, out)
}

// Whether the first `count` blocks of h are those of the set; where they are, their text is opened
// into out.
fn open_blocks(key: &[u8; 32], number: u64, count: usize, h: &[u8], out: &mut [u8]) -> bool
    requires { (count ≤ most_blocks) × (block_bytes * count ≤ length h.now)
        × (length out.old ≡ text_bytes * count) × (number ≡ set_number h.now) }
    ensures value { result ≡ first_fit key.now h.now count }
    ensures out_after { result ≡ true → out.new ≡ opened_blocks key.now h.now count }
{
    let keys = half_seal::one_time_keys(key, number, count);
    let mut fit = true;
    for i in 0..count {
        let once = aead_one_time::key_at(&keys, i);
        let this = open_block(
            key,
            &once,
            number,
            i as u32,
            &h[BLOCK * i..BLOCK * i + BLOCK],
            &mut out[TEXT * i..TEXT * i + TEXT],
        );
        fit = fit & this;
    }
    fit
}

fn is_whole(bytes: usize) -> bool
    ensures { result ≡ eqb (bytes % block_bytes) 0
        && (leb 3 (bytes / block_bytes) && leb (bytes / block_bytes) most_blocks) }
{
    (bytes % BLOCK == 0) & ((3 <= bytes / BLOCK) & (bytes / BLOCK <= MOST_BLOCKS))
}

// Why whole blocks are turned down; where they are not, `text` then has what they open to.
fn why_not_opened(
    key: &[u8; 32],
    name: [u8; NAME],
    party: u32,
    h: &[u8],
    text: &mut [u8],
) -> Result<(), Refusal>
    requires { (3 ≤ length h.now / block_bytes) × (length h.now / block_bytes ≤ most_blocks)
        × (length text.old ≡ text_bytes * (length h.now / block_bytes)) }
    ensures value { why_of result ≡ why_not_opened key.now name party h.now }
    ensures text_after { OnOk result (text.new ≡ opened_content key.now h.now) }
{
    let count = h.len() / BLOCK;
    if !open_blocks(key, load_number(h), count, h, text) {
        return Err(Refusal::BadBlock);
    }
    if !half_reading::content_fits(name, party, count, text) {
        return Err(Refusal::BadContent);
    }
    Ok(())
}

// Why any bytes are turned down before a block is opened, or the set's number.
fn why_not_numbered(last: u64, h: &[u8]) -> Result<u64, Refusal>
    ensures value { why_of result ≡ unless (whole_blocks h.now) wrong_length
        (unless (ltb last (set_number h.now)) wrong_number 0) }
    ensures its_number { IfOk result (λ number. number ≡ set_number h.now) }
{
    if !is_whole(h.len()) {
        return Err(Refusal::WrongLength);
    }
    let number = load_number(h);
    if !(last < number) {
        return Err(Refusal::WrongNumber);
    }
    Ok(number)
}

// Why whole blocks are turned down, with room for any half; where they are not, as many bytes at the start
// of `room` are then what they open to.
fn why_not_within(
    key: &[u8; 32],
    name: [u8; NAME],
    party: u32,
    h: &[u8],
    room: &mut [u8; ROOM],
) -> Result<usize, Refusal>
    requires { (3 ≤ length h.now / block_bytes) × (length h.now / block_bytes ≤ most_blocks) }
    ensures value { why_of result ≡ why_not_opened key.now name party h.now }
    ensures room_after { IfOk result (λ size. (size ≡ text_bytes * (length h.now / block_bytes))
        × (take size room.new ≡ opened_content key.now h.now)) }
{
    let size = TEXT * (h.len() / BLOCK);
    why_not_opened(key, name, party, h, &mut room[..size])?;
    Ok(size)
}

// Examines a half for a box of this key, padded name and party, where its number has to be above
// `last`: the set, or why it is turned down. Any bytes may be handed in, and nothing is committed. (Bytes
// that are turned down by length or number need no room for their text.)
pub fn examine(
    key: &[u8; 32],
    name: [u8; NAME],
    party: u32,
    last: u64,
    h: &[u8],
) -> Result<Set, Refusal>
    ensures { as_examined result ≡ examined key.now name party last h.now }
{
    let number = why_not_numbered(last, h)?;
    let mut room = [0u8; ROOM];
    let size = why_not_within(key, name, party, h, &mut room)?;
    Ok(half_reading::read_set(number, &room[..size]))
}

// The same with no set read: of a half that is taken, measure code and L alone.
pub fn tell(
    key: &[u8; 32],
    name: [u8; NAME],
    party: u32,
    last: u64,
    half: &[u8],
) -> Result<Terms, Refusal>
    ensures { as_told result ≡ told key.now name party last half.now }
{
    why_not_numbered(last, half)?;
    let mut room = [0u8; ROOM];
    let size = why_not_within(key, name, party, half, &mut room)?;
    Ok(half_reading::terms_in(&room[..size]))
}
