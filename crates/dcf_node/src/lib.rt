// A node of a comparison key's tree, opened by a ChaCha20 block: the seed, word and flag of a child,
// and what key making and walking do with them. A flag is a word whose lowest bit counts, and
// nothing here branches on one: a mask of ones or zeros takes a correction or leaves it.
#![tactic(auto)]

ghost use Rattle.std.specs.Prelude.{◌≡◌, ◌&&◌, ◌<◌, take};
ghost use Rattle.std.specs.Bool.{xor};
ghost use Rattle.base_algebra.specs.Bit.{only as only_if, odd};
ghost use Rattle.base_words.specs.Xor.{xors};
ghost use Rattle.chacha20_rounds.specs.Rounds.{words};
ghost use Rattle.dcf_function.specs.Dcf.{by_sign, bits, side_flag, corrected as corrected_by, taken as taken_by};
ghost use Rattle.dcf_node.specs.Node.{child, node_nonce, unpacked, as_walk};

use chacha20_rounds::State;

// A level's correction. Of the flags, bit 0 is the left one and bit 1 the right one.
#[repr(C)]
#[derive(Clone, Copy)]
pub struct Correction {
    pub seed: [u32; 8],
    pub word: u32,
    pub flags: u32,
}

#[repr(C)]
#[derive(Clone, Copy)]
pub struct Key {
    pub corrections: [Correction; 32],
    pub last: u32,
}

// A party's walk before a level.
#[derive(Clone, Copy)]
pub struct Walk {
    pub seed: [u32; 8],
    pub flag: u32,
    pub total: u32,
}

// The nonce under which a node is opened into children of this level: 1 for the root's, to 32.
pub fn nonce(level: u32) -> [u32; 3]
    ensures { result ≡ node_nonce level }
{
    [0, level, 0]
}

// Sign × x, where the sign is -1 if the flag is set.
pub fn by_sign(flag: u32, x: u32) -> u32
    ensures { result ≡ by_sign (odd flag) x }
{
    base_words::sub(x, base_words::only(flag, base_words::add(x, x)))
}

// Bit i from the highest: that of level i + 1.
pub fn level_bit(u: u32, i: usize) -> u32
    requires { i < 32 }
    ensures { result ≡ only_if (bits 32 u i) 1 }
{
    (u >> (31 - i)) & 1
}

// The seed of the child whose block is s.
pub fn seed_of(s: State) -> [u32; 8]
    ensures { result ≡ take 8 (words s) }
{
    [s.x0, s.x1, s.x2, s.x3, s.x4, s.x5, s.x6, s.x7]
}

// A seed, xored with its correction if the flag is set.
// kept: eight words written out, since LLVM makes a loop of `for i in 0..8`: a walk then takes 2.4 times as long on
// x86-64, and 12 % longer on x86-64-v3.
pub fn corrected(flag: u32, s: [u32; 8], c: [u32; 8]) -> [u32; 8]
    ensures { result ≡ corrected_by xors (odd flag) s c }
{
    [
        s[0] ^ base_words::only(flag, c[0]),
        s[1] ^ base_words::only(flag, c[1]),
        s[2] ^ base_words::only(flag, c[2]),
        s[3] ^ base_words::only(flag, c[3]),
        s[4] ^ base_words::only(flag, c[4]),
        s[5] ^ base_words::only(flag, c[5]),
        s[6] ^ base_words::only(flag, c[6]),
        s[7] ^ base_words::only(flag, c[7]),
    ]
}

// The flag correction of side d.
pub fn side_flag(c: Correction, d: u32) -> u32
    ensures { odd result ≡ side_flag (unpacked c) (odd d) }
{
    c.flags >> (d & 1)
}

// A flag, xored with its correction for side d if the old flag is set.
pub fn next_flag(old: u32, flag: u32, c: Correction, d: u32) -> u32
    ensures { odd result ≡ xor (odd flag) (odd old && side_flag (unpacked c) (odd d)) }
{
    flag ^ base_words::only(old, side_flag(c, d))
}

// A level of a party's walk to side d, whose child stands in the block s.
pub fn taken(w: Walk, c: Correction, d: u32, s: State) -> Walk
    ensures { as_walk result ≡ taken_by xors (unpacked c) (odd d) (child (words s)) (as_walk w) }
{
    let f = w.flag;
    let e = c.seed;
    let seed = seed_of(s);
    Walk {
        seed: corrected(f, seed, e),
        flag: next_flag(f, s.x9, c, d),
        total: base_words::add(base_words::add(w.total, s.x8), base_words::only(f, c.word)),
    }
}
