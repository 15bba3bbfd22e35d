// What a half holds (01, "The sealed half"): a set as a box carries it once it is opened. `half_layout`
// writes its plain bytes and `half_reading` reads them. [SPEC 9.1, 12.6]
#![tactic(auto)]

ghost use Rattle.std.specs.Prelude.{◌≡◌, ◌≤◌};
ghost use Rattle.half_content.specs.Content.{x_field, y_field, c_field, r_field, seed_field, corrections_field};
ghost use Rattle.half_content.specs.Content.{last_field, width_field, mark_field, offset, size, block_count};
ghost use Rattle.half_content.specs.Content.{no_correction, no_set, width_fits};

use dcf_node::{Correction, Key};
use measure_table::{BETWEEN_MARK, MOST_ELEMENTS, ORDINARY_MARK, ORDINARY_WIDTH, Terms};

// The bytes of a block, and how many of them are sealed text. It stands past twelve bytes, the set's
// number and the block's index, and before the tag.
pub const BLOCK: usize = 512;

pub const TEXT: usize = 484;

pub const TAG_AT: usize = 12 + TEXT;

// The most blocks of a half, and the bytes of text in as many.
pub const MOST_BLOCKS: usize = 16;

pub const ROOM: usize = MOST_BLOCKS * TEXT;

// An opened set: the mask of the party's own vector, its shares of X's mask and of Y's, its c and r
// words, its key seed, the comparison key, and the width and mark of the rule that it was dealt by.
// Arrays are zero past the terms' length. [SPEC 3.1, 3.14, 12.11]
#[repr(C)]
#[derive(Clone, Copy)]
pub struct Set {
    pub number: u64,
    pub terms: Terms,
    pub mask: [u32; MOST_ELEMENTS],
    pub x: [u32; MOST_ELEMENTS],
    pub y: [u32; MOST_ELEMENTS],
    pub c: u32,
    pub r: u32,
    pub seed: [u32; 8],
    pub key: Key,
    pub width: u32,
    pub mark: u32,
}

// A correction word of zeros.
pub fn no_correction() -> Correction
    ensures { result ≡ no_correction }
{
    Correction {
        seed: [0; 8],
        word: 0,
        flags: 0,
    }
}

// All that a set brings, at zero.
// kept: a function, since Rust has no `Default` for arrays of 512 words and none would be shorter by hand.
pub fn no_set() -> Set
    ensures { result ≡ no_set }
{
    let none = no_correction();
    let key = Key {
        corrections: [none; 32],
        last: 0,
    };
    Set {
        number: 0,
        terms: Terms { code: 0, n: 0 },
        mask: [0; MOST_ELEMENTS],
        x: [0; MOST_ELEMENTS],
        y: [0; MOST_ELEMENTS],
        c: 0,
        r: 0,
        seed: [0; 8],
        key,
        width: 0,
        mark: 0,
    }
}

// ---- where the fields of plain content stand, each past the one before it. Vectors have n elements,
// and n is one that two bytes can hold.
// kept: (a) `n ≤ 65535` stands in eleven contracts: documents name these functions, and a u16 asks more of callers.

// Name, party, measure code and L: the bytes before the vectors, of which the own mask is the first.
pub const PARTY_AT: usize = 16;

pub const CODE_AT: usize = PARTY_AT + 1;

pub const LENGTH_AT: usize = CODE_AT + 1;

pub const HEAD: usize = LENGTH_AT + 2;

// c, r, the key seed, the corrections, the final word, the width and the mark: the bytes past the
// vectors, counted from c.
pub const R_IN_TAIL: usize = 4;

pub const SEED_IN_TAIL: usize = R_IN_TAIL + 4;

pub const CORRECTIONS_IN_TAIL: usize = SEED_IN_TAIL + 32;

pub const LAST_IN_TAIL: usize = CORRECTIONS_IN_TAIL + 32 * 37;

pub const WIDTH_IN_TAIL: usize = LAST_IN_TAIL + 4;

pub const MARK_IN_TAIL: usize = WIDTH_IN_TAIL + 4;

pub const TAIL: usize = MARK_IN_TAIL + 1;

// The share of X's mask.
pub fn x_at(n: usize) -> usize
    requires { n ≤ 65535 }
    ensures { result ≡ offset n x_field }
{
    HEAD + 4 * n
}

// The share of Y's mask.
pub fn y_at(n: usize) -> usize
    requires { n ≤ 65535 }
    ensures { result ≡ offset n y_field }
{
    x_at(n) + 4 * n
}

pub fn c_at(n: usize) -> usize
    requires { n ≤ 65535 }
    ensures { result ≡ offset n c_field }
{
    y_at(n) + 4 * n
}

pub fn r_at(n: usize) -> usize
    requires { n ≤ 65535 }
    ensures { result ≡ offset n r_field }
{
    c_at(n) + R_IN_TAIL
}

// The key seed.
pub fn seed_at(n: usize) -> usize
    requires { n ≤ 65535 }
    ensures { result ≡ offset n seed_field }
{
    c_at(n) + SEED_IN_TAIL
}

pub fn corrections_at(n: usize) -> usize
    requires { n ≤ 65535 }
    ensures { result ≡ offset n corrections_field }
{
    c_at(n) + CORRECTIONS_IN_TAIL
}

// The final word.
pub fn last_at(n: usize) -> usize
    requires { n ≤ 65535 }
    ensures { result ≡ offset n last_field }
{
    c_at(n) + LAST_IN_TAIL
}

pub fn width_at(n: usize) -> usize
    requires { n ≤ 65535 }
    ensures { result ≡ offset n width_field }
{
    c_at(n) + WIDTH_IN_TAIL
}

pub fn mark_at(n: usize) -> usize
    requires { n ≤ 65535 }
    ensures { result ≡ offset n mark_field }
{
    c_at(n) + MARK_IN_TAIL
}

// Whether a set may have this width and this mark.
pub fn width_fits(width: u32, mark: u32) -> bool
    ensures { result ≡ width_fits width mark }
{
    let fits = (mark <= BETWEEN_MARK) & (width <= ORDINARY_WIDTH);
    if mark == ORDINARY_MARK {
        return fits & (width == ORDINARY_WIDTH);
    }
    fits
}

// The bytes of all fields.
pub fn size_of(n: usize) -> usize
    requires { n ≤ 65535 }
    ensures { result ≡ size n }
{
    c_at(n) + TAIL
}

// How many blocks the content of a set of length n fills.
pub fn blocks_of(n: usize) -> usize
    requires { n ≤ 65535 }
    ensures { result ≡ block_count n }
{
    size_of(n).div_ceil(TEXT)
}
