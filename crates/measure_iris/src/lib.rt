// Iris codes (02, §10): 512 bits, packed in 64 bytes or unpacked as a vector of 0 and 1. The scanner
// sends a code angle by angle, at bit angle * 8 + ring; we store it ring by ring, at bit
// ring * 64 + angle. No public function asks anything of its caller. Each tells 0, or the number of why
// not; with a number it leaves a lent buffer as it was. No part of a door is touched.
// [SPEC 35.1 to 35.12]
#![tactic(auto)]

ghost use Rattle.std.specs.Prelude.{◌≡◌, ℕ, ◌*◌, ◌<◌, ◌≤◌, IfOk, length, get_or};
ghost use Rattle.base_words.specs.List.{over};
ghost use Rattle.base_messages.specs.Refusals.{why_of};
ghost use Rattle.measure_iris.specs.Iris.{Vector, code_bits, code_bytes, bit as bit_of, from_bits, code_of_bits};
ghost use Rattle.measure_iris.specs.Iris.{to_rings, to_angles, unpacked, packed, distance as distance_of};
ghost use Rattle.measure_iris.specs.Iris.{why_not_code, why_not_vector, buffer_after, hamming_answer};
ghost use Rattle.measure_iris.specs.Laws.{place_for};

use base_messages::Refusal;
use measure_table::Terms;

pub const ANGLES: usize = 64;

pub const RINGS: usize = 8;

// The bytes of a packed code, and its bits.
pub const CODE_BYTES: usize = 64;

pub const CODE_BITS: usize = 512;

// As many words as its bytes make.
const CODE_WORDS: usize = 16;

// The code of Hamming in the table of measures.
// kept: the C interface: a code is a number in `Terms`.
const HAMMING: u32 = 2;

// In how many bits two codes differ, or why they were not compared.
// kept: the C interface.
#[repr(C)]
#[derive(Clone, Copy)]
pub struct HammingAnswer {
    pub why: u32,
    pub distance: u32,
}

// Bit i of a code.
fn bit(code: &[u8; CODE_BYTES], i: usize) -> u32
    requires { i < code_bits }
    ensures { (result ≡ bit_of code.now i) × (result < 2) }
{
    (code[i / 8] as u32 >> (i % 8)) % 2
}

// Where bit i of a rearranged code comes from. `stored`: it is to be in our order, and this is where the
// scanner has that bit; else it is to be in the scanner's, and this is where we have it.
// kept: `stored`, as `place_for` has it: for a closure each function down to `bit` would ask where its places lie.
fn place(stored: bool, i: usize) -> usize
    requires { i < code_bits }
    ensures { (result ≡ place_for stored i) × (result < code_bits) }
{
    if stored {
        i % ANGLES * RINGS + i / ANGLES
    } else {
        i % RINGS * ANGLES + i / RINGS
    }
}

// Byte j of a rearranged code, from its highest bit down.
// kept: `stored`, as at `place`.
fn rearranged_byte(stored: bool, code: &[u8; CODE_BYTES], j: usize) -> u8
    requires { j < code_bytes }
    ensures { result ≡ from_bits (λ i. bit_of code.now (place_for stored i)) (8 * j) 8 }
{
    let mut byte: u32 = 0;
    for k in (0..8).rev() {
        byte = 2 * byte + bit(code, place(stored, 8 * j + k));
    }
    byte as u8
}

// The bytes of a code rearranged, to the start of out: as we store it, or as the scanner sends it.
// kept: `stored`, as at `place`.
fn rearrange_bytes(stored: bool, code: &[u8; CODE_BYTES], out: &mut [u8])
    requires { code_bytes ≤ length out.old }
    ensures { out.new ≡ over 0 (code_of_bits (λ i. bit_of code.now (place_for stored i)))
        out.old }
{
    for j in 0..CODE_BYTES {
        out[j] = rearranged_byte(stored, code, j);
    }
}

// The bits of a code to the start of out, a word for each.
fn spread(code: &[u8; CODE_BYTES], out: &mut [u32])
    requires { code_bits ≤ length out.old }
    ensures { out.new ≡ over 0 (unpacked code.now) out.old }
{
    for i in 0..CODE_BITS {
        out[i] = bit(code, i);
    }
}

// Byte j of a packed vector, from its highest bit down.
fn packed_byte(v: &[u32; CODE_BITS], j: usize) -> u8
    requires { (j < code_bytes) × ((i : ℕ) → get_or v.now i 0 < 2) }
    ensures { result ≡ from_bits (λ i. get_or v.now i 0) (8 * j) 8 }
{
    let mut byte: u32 = 0;
    for k in (0..8).rev() {
        byte = 2 * byte + v[8 * j + k];
    }
    byte as u8
}

// The bytes whose bits are the elements of v, to the start of out.
fn gather(v: &[u32; CODE_BITS], out: &mut [u8])
    requires { ((i : ℕ) → get_or v.now i 0 < 2) × (code_bytes ≤ length out.old) }
    ensures { out.new ≡ over 0 (packed v.now) out.old }
{
    for j in 0..CODE_BYTES {
        out[j] = packed_byte(v, j);
    }
}

// How many bits of the xor of two codes are 1, counted word by word: byte by byte took 41 ns, and this
// 10, where a processor may have no instruction that counts.
fn differing(a: &[u8; CODE_BYTES], b: &[u8; CODE_BYTES]) -> u32
    ensures { result ≡ distance_of a.now b.now }
{
    let mut n: u32 = 0;
    for i in 0..CODE_WORDS {
        n += u32::count_ones(base_slices::load(a, 4 * i) ^ base_slices::load(b, 4 * i));
    }
    n
}

// A packed code, where n elements are to be written to a buffer of `room`. Any bytes are a code.
fn why_not_code(code: &[u8], n: usize, room: usize) -> Result<&[u8; CODE_BYTES], Refusal>
    ensures why { why_of result ≡ why_not_code code.now n room }
    ensures taken { IfOk result (λ a. (a.now ≡ code.now) × (n ≤ room)) }
{
    let Some(code) = code.as_array() else {
        return Err(Refusal::WrongLength);
    };
    base_messages::require(n <= room, Refusal::ShortBuffer)?;
    Ok(code)
}

// A vector, where a code is to be written to a buffer of `room`. The elements of one of another length are not
// looked at.
fn why_not_vector(v: &[u32], room: usize) -> Result<&[u32; CODE_BITS], Refusal>
    ensures why { why_of result ≡ why_not_vector v.now room }
    ensures taken { IfOk result (λ a. (a.now ≡ v.now) × (Vector v.now × (code_bytes ≤ room))) }
{
    let terms = Terms {
        code: HAMMING,
        n: CODE_BITS,
    };
    let Some(v) = v.as_array() else {
        return Err(Refusal::WrongLength);
    };
    base_messages::require(CODE_BYTES <= room, Refusal::ShortBuffer)?;
    base_messages::require(measure_table::all_in_range(terms, v), Refusal::OutOfRange)?;
    Ok(v)
}

// A code rearranged, if it is one and there is room.
// kept: `stored`, as at `place`.
fn rearrange(stored: bool, code: &[u8], out: &mut [u8]) -> Result<(), Refusal>
    ensures value { why_of result ≡ why_not_code code.now code_bytes (length out.old) }
    ensures out_after { out.new ≡ buffer_after
        (why_not_code code.now code_bytes (length out.old))
        (code_of_bits (λ i. bit_of code.now (place_for stored i))) out.old }
{
    let code = why_not_code(code, CODE_BYTES, out.len())?;
    rearrange_bytes(stored, code, out);
    Ok(())
}

// From the scanner's order to ours.
// kept: the C interface: this and the calls below answer a number, as c_door's exports hand it on.
pub fn to_rings(code: &[u8], out: &mut [u8]) -> u32
    ensures value { result ≡ why_not_code code.now code_bytes (length out.old) }
    ensures out_after { out.new ≡ buffer_after
        (why_not_code code.now code_bytes (length out.old))
        (to_rings code.now) out.old }
{
    base_messages::why(rearrange(true, code, out))
}

// From our order to the scanner's.
pub fn to_angles(code: &[u8], out: &mut [u8]) -> u32
    ensures value { result ≡ why_not_code code.now code_bytes (length out.old) }
    ensures out_after { out.new ≡ buffer_after
        (why_not_code code.now code_bytes (length out.old))
        (to_angles code.now) out.old }
{
    base_messages::why(rearrange(false, code, out))
}

// The vector whose element i is bit i of a code as it stands, in whichever order.
pub fn unpack(code: &[u8], out: &mut [u32]) -> u32
    ensures value { result ≡ why_not_code code.now code_bits (length out.old) }
    ensures out_after { out.new ≡ buffer_after
        (why_not_code code.now code_bits (length out.old))
        (unpacked code.now) out.old }
{
    match why_not_code(code, CODE_BITS, out.len()) {
        Ok(code) => {
            spread(code, out);
            0
        }
        Err(refusal) => refusal.number(),
    }
}

// The code whose bit i is element i of a vector.
pub fn pack(v: &[u32], out: &mut [u8]) -> u32
    ensures value { result ≡ why_not_vector v.now (length out.old) }
    ensures out_after { out.new ≡ buffer_after
        (why_not_vector v.now (length out.old))
        (packed v.now) out.old }
{
    match why_not_vector(v, out.len()) {
        Ok(v) => {
            gather(v, out);
            0
        }
        Err(refusal) => refusal.number(),
    }
}

// In how many bits two codes differ, both in one order: the measure of the two unpacked.
pub fn hamming(a: &[u8], b: &[u8]) -> HammingAnswer
    ensures { result ≡ hamming_answer a.now b.now }
{
    let (Some(a), Some(b)) = (a.as_array(), b.as_array()) else {
        return HammingAnswer {
            why: Refusal::WrongLength.number(),
            distance: 0,
        };
    };
    HammingAnswer {
        why: 0,
        distance: differing(a, b),
    }
}
