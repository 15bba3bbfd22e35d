// Seals a half in blocks (01, "The sealed half"). `half_open` examines one. [SPEC 10.1 to 10.4, 10.6]
#![tactic(auto)]

ghost use Rattle.std.specs.Prelude.{◌≡◌, ◌*◌, ◌/◌, ◌%◌, ◌^◌, ◌≤◌, ◌<◌, length};
ghost use Rattle.base_words.specs.List.{over};
ghost use Rattle.aead_seal.specs.Aead.{poly_key};
ghost use Rattle.half_content.specs.Content.{block_bytes, text_bytes, most_blocks, block_count, Proper};
ghost use Rattle.half_seal.specs.Half.{header as header_of, block, first_blocks, half};
ghost use Rattle.half_seal.specs.OneTime.{KeysFor};

use half_content::{BLOCK, MOST_BLOCKS, Set, TAG_AT, TEXT};

// kept: `%` and `/`, since two words put together again from the eight of `to_le_bytes` are no plainer.
fn low(number: u64) -> u32
    ensures { result ≡ number % 2 ^ 32 }
{
    (number % 4294967296) as u32
}

// kept: as `low`.
fn high(number: u64) -> u32
    ensures { result ≡ number / 2 ^ 32 }
{
    (number / 4294967296) as u32
}

// A block's first twelve bytes: the set's number and the block's index.
fn header(number: u64, i: u32) -> [u8; 12]
    ensures { result ≡ header_of number i }
{
    let w = [low(number), high(number), i];
    let mut out = [0u8; 12];
    base_slices::store_all(&mut out, 0, &w);
    out
}

// The one-time keys of a set's first `count` blocks, for sealing and for opening them.
pub fn one_time_keys(key: &[u8; 32], number: u64, count: usize) -> [u8; 32 * MOST_BLOCKS]
    requires { count ≤ most_blocks }
    ensures { KeysFor key.now number count result }
{
    aead_one_time::keys_to(key, low(number), high(number), count)
}

// Block i: its text, sealed. Its one-time key is at hand.
fn write_block(key: &[u8; 32], once: &[u8; 32], number: u64, i: u32, text: &[u8], out: &mut [u8])
    requires text_len { (length text.now ≡ text_bytes) × (length out.old ≡ block_bytes) }
    requires once_value { once.now ≡ poly_key key.now (header_of number i) }
    ensures { out.new ≡ block key.now number i text.now }
{
    let h = header(number, i);
    base_slices::copy(out, 0, &h);
    base_slices::copy(out, 12, text);
    let aad = h;
    let sealed = aead_seal::seal_by(key, once, &h, &aad, &mut out[12..TAG_AT]);
    let tag = sealed.unwrap();
    base_slices::copy(out, TAG_AT, &tag);
}

// The first `count` blocks of plain content p, from the start of out.
pub fn write_blocks(key: &[u8; 32], number: u64, count: usize, p: &[u8], out: &mut [u8])
    requires { (count ≤ most_blocks) × (text_bytes * count ≤ length p.now)
        × (block_bytes * count ≤ length out.old) }
    ensures { out.new
        ≡ over 0 (first_blocks key.now number p.now count) out.old }
{
    let keys = one_time_keys(key, number, count);
    for i in 0..count {
        let once = aead_one_time::key_at(&keys, i);
        write_block(
            key,
            &once,
            number,
            i as u32,
            &p[TEXT * i..TEXT * i + TEXT],
            &mut out[BLOCK * i..BLOCK * i + BLOCK],
        );
    }
}

// A party's half of a set, from the start of out.
pub fn write_half(key: &[u8; 32], name: [u8; 16], party: u32, s: Set, out: &mut [u8])
    requires party_bound { (party < 256) × (block_bytes * block_count s.terms.n ≤ length out.old) }
    requires proper { Proper s }
    ensures { out.new ≡ over 0 (half key.now name party s) out.old }
{
    let number = s.number;
    let count = half_content::blocks_of(s.terms.n);
    let p = half_layout::lay_out(name, party, s);
    write_blocks(key, number, count, &p, out);
}
