// A set read from its plain bytes, and whether these are what a deal writes (01, "The sealed half").
// [SPEC 9.1, 23.11]
#![tactic(auto)]

ghost use Rattle.std.specs.Prelude.{◌≡◌, ◌*◌, ◌<◌, ◌≤◌, length, get_or};
ghost use Rattle.base_words.specs.Bytes.{word_at, words_at};
ghost use Rattle.measure_table.specs.Measure.{most_elements};
ghost use Rattle.half_content.specs.Content.{text_bytes, most_blocks, mask_field, offset, size, fill, length_in};
ghost use Rattle.half_content.specs.Content.{terms_in};
ghost use Rattle.half_content.specs.Content.{corrections_in, key_in, set_in, flags_fit, zeros};
ghost use Rattle.half_content.specs.Content.{content_fits};

use dcf_node::{Correction, Key};
use half_content::{CODE_AT, HEAD, LENGTH_AT, PARTY_AT, Set};
use measure_table::{MOST_ELEMENTS, Terms};

// L, from its two bytes.
fn length_in(b: &[u8]) -> u16
    requires { offset 0 mask_field ≤ length b.now }
    ensures { result ≡ length_in b.now }
{
    u16::from_le_bytes([b[LENGTH_AT], b[LENGTH_AT + 1]])
}

// Measure code and L.
pub fn terms_in(b: &[u8]) -> Terms
    requires { offset 0 mask_field ≤ length b.now }
    ensures { (result ≡ terms_in b.now) × (result.n ≡ length_in b.now) × (result.n < 65536) }
{
    Terms {
        code: u32::from(b[CODE_AT]),
        n: usize::from(length_in(b)),
    }
}

// The first n words of f, and zeros past them.
fn vector(f: &[u8], n: usize) -> [u32; MOST_ELEMENTS]
    requires { (n ≤ most_elements) × (4 * n ≤ length f.now) }
    ensures { result ≡ fill (words_at n f.now) }
{
    let mut w = [0u32; MOST_ELEMENTS];
    for i in 0..n {
        w[i] = base_slices::load(f, 4 * i);
    }
    w
}

fn seed_in(f: &[u8]) -> [u32; 8]
    requires { length f.now ≡ 32 }
    ensures { result ≡ words_at 8 f.now }
{
    chacha20_block::key_words(&base_slices::bytes_32(f))
}

// A correction, from its own bytes.
fn correction_in(c: &[u8]) -> Correction
    requires { length c.now ≡ 37 }
    ensures { result ≡ record { seed = words_at 8 c.now; word = word_at c.now 32; flags = get_or c.now 36 0 } }
{
    Correction {
        seed: seed_in(&c[..32]),
        word: base_slices::load(c, 32),
        flags: u32::from(c[36]),
    }
}

fn corrections_in(f: &[u8]) -> [Correction; 32]
    requires { length f.now ≡ 32 * 37 }
    ensures { result ≡ corrections_in f.now 32 }
{
    let none = half_content::no_correction();
    let mut cs = [none; 32];
    for i in 0..32 {
        cs[i] = correction_in(&f[37 * i..37 * i + 37]);
    }
    cs
}

// The comparison key of plain content whose vectors have n elements.
fn key_in(b: &[u8], n: usize) -> Key
    requires { (n ≡ length_in b.now) × (n ≤ most_elements) × (size n ≤ length b.now) }
    ensures { result ≡ key_in b.now }
{
    let corrections_at = half_content::corrections_at(n);
    let last_at = half_content::last_at(n);
    Key {
        corrections: corrections_in(&b[corrections_at..last_at]),
        last: base_slices::load(b, last_at),
    }
}

// The set of this number that plain content holds.
pub fn read_set(number: u64, b: &[u8]) -> Set
    requires { (length_in b.now ≤ most_elements) × (size (length_in b.now) ≤ length b.now) }
    ensures { result ≡ set_in number b.now }
{
    let terms = terms_in(b);
    let n = terms.n;
    let x_at = half_content::x_at(n);
    let y_at = half_content::y_at(n);
    let c_at = half_content::c_at(n);
    let seed_at = half_content::seed_at(n);
    let corrections_at = half_content::corrections_at(n);
    Set {
        number,
        terms,
        mask: vector(&b[HEAD..x_at], n),
        x: vector(&b[x_at..y_at], n),
        y: vector(&b[y_at..c_at], n),
        c: base_slices::load(b, c_at),
        r: base_slices::load(b, half_content::r_at(n)),
        seed: seed_in(&b[seed_at..corrections_at]),
        key: key_in(b, n),
        width: base_slices::load(b, half_content::width_at(n)),
        mark: u32::from(b[half_content::mark_at(n)]),
    }
}

// Whether every flag byte of the 32 corrections that f holds is in range.
fn flags_fit(f: &[u8]) -> bool
    requires { length f.now ≡ 32 * 37 }
    ensures { result ≡ flags_fit (corrections_in f.now 32) }
{
    let mut all = true;
    for i in 0..32 {
        all = all & (f[37 * i + 36] < 4);
    }
    all
}

fn all_zero(b: &[u8]) -> bool
    ensures { result ≡ zeros b.now }
{
    let mut all = true;
    for x in b {
        all = all & (*x == 0);
    }
    all
}

// Whether a half of `count` blocks was opened to content of this name and party, all of it in
// range. Only where L is in range and asks for as many blocks is anything past it looked at.
pub fn content_fits(name: [u8; 16], party: u32, count: usize, b: &[u8]) -> bool
    requires { (length b.now ≡ text_bytes * count) × (3 ≤ count) × (count ≤ most_blocks) }
    ensures { result ≡ content_fits name party count b.now }
{
    let terms = terms_in(b);
    if !measure_table::length_fits(terms) {
        return false;
    }
    let n = terms.n;
    if half_content::blocks_of(n) != count {
        return false;
    }
    let corrections_at = half_content::corrections_at(n);
    let last_at = half_content::last_at(n);
    let width_at = half_content::width_at(n);
    let mark_at = half_content::mark_at(n);
    let end = half_content::size_of(n);
    let named = base_slices::equal(&b[..PARTY_AT], &name);
    let owned = u32::from(b[PARTY_AT]) == party;
    let code = measure_table::is_code(terms.code);
    let flags = flags_fit(&b[corrections_at..last_at]);
    let width = half_content::width_fits(base_slices::load(b, width_at), u32::from(b[mark_at]));
    named & owned & code & flags & width & all_zero(&b[end..])
}
