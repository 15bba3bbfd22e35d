// Makes a comparison key: two key seeds and a point give 32 corrections and a final word. Each
// level opens both children of both parties' nodes in one four-block pass; the side that the
// point's bit keeps is picked by its lane, so that nothing branches on the point or on a flag.
#![tactic(auto)]

ghost use Rattle.std.specs.Prelude.{◌≡◌, true, [], get_or, ◌+◌, ◌*◌, ◌<◌};
ghost use Rattle.std.specs.Bool.{xor};
ghost use Rattle.base_algebra.specs.Word.{add, sub};
ghost use Rattle.base_algebra.specs.Bit.{only, odd};
ghost use Rattle.base_words.specs.Xor.{xors};
ghost use Rattle.chacha20_lanes.specs.Lanes.{rows};
ghost use Rattle.dcf_function.specs.Dcf.{by_sign, correction as correction_by, kept as kept_by};
ghost use Rattle.dcf_node.specs.Node.{child, packed, unpacked, key_for, first};
ghost use Rattle.dcf_keys.specs.Keys.{as_child, as_making, both_opened, opened_at};

use dcf_node::{Correction, Key};

#[derive(Clone, Copy)]
pub struct Child {
    pub seed: [u32; 8],
    pub word: u32,
    pub flag: u32,
}

// Key making before a level: both parties' seeds and flags, and V.
// kept: s0 and s1, t0 and t1, as `Making` of dcf_function names them.
#[derive(Clone, Copy)]
pub struct Making {
    pub s0: [u32; 8],
    pub s1: [u32; 8],
    pub t0: u32,
    pub t1: u32,
    pub v: u32,
}

// The children of both seeds, which are of this level: left and right of s0, left and right of s1.
// kept: four calls: a loop over the lanes would pick seed and counter by the lane's number, in more lines.
fn open_both(x: &mut [u32; 64], level: u32, s0: [u32; 8], s1: [u32; 8])
    ensures { rows 4 x.new ≡ both_opened level s0 s1 }
{
    let nonce = dcf_node::nonce(level);
    chacha20_lanes::set_lane(x, 0, chacha20_block::start(s0, 0, nonce));
    chacha20_lanes::set_lane(x, 1, chacha20_block::start(s0, 1, nonce));
    chacha20_lanes::set_lane(x, 2, chacha20_block::start(s1, 0, nonce));
    chacha20_lanes::set_lane(x, 3, chacha20_block::start(s1, 1, nonce));
    chacha20_wide::blocks(x);
}

fn child_at(x: &[u32; 64], l: usize) -> Child
    requires { l < 4 }
    ensures { as_child result ≡ child (get_or (rows 4 x.now) l []) }
{
    let s = chacha20_lanes::lane(x, l);
    Child {
        seed: dcf_node::seed_of(s),
        word: s.x8,
        flag: s.x9,
    }
}

// W: Sign × (v1 Lose - v0 Lose - V), plus Sign if Lose is left. [SPEC 7.7]
fn word_correction(t1: u32, v: u32, b: u32, v0: u32, v1: u32) -> u32
    ensures { result ≡ add (by_sign (odd t1) (sub (sub v1 v0) v)) (only (odd b) (by_sign (odd t1) 1)) }
{
    let difference = base_words::sub(base_words::sub(v1, v0), v);
    let one = base_words::only(b, dcf_node::by_sign(t1, 1));
    base_words::add(dcf_node::by_sign(t1, difference), one)
}

// The two flag corrections, from both parties' left and right flags.
fn flag_corrections(l0: u32, l1: u32, r0: u32, r1: u32, b: u32) -> u32
    ensures { result ≡ only (xor (xor (xor (odd l0) (odd l1)) (odd b)) true) 1
        + 2 * only (xor (xor (odd r0) (odd r1)) (odd b)) 1 }
{
    (l0 ^ l1 ^ b ^ 1) % 2 + 2 * ((r0 ^ r1 ^ b) % 2)
}

// The correction of a level whose bit of the point is b, the children standing in x.
fn correction(g: Making, b: u32, x: &[u32; 64]) -> Correction
    requires { b < 2 }
    ensures { result ≡ packed (correction_by xors (odd b) (as_making g)
        (opened_at (rows 4 x.now) 0) (opened_at (rows 4 x.now) 1)) }
{
    let lose = (1 - b) as usize;
    let e0 = child_at(x, lose);
    let e1 = child_at(x, 2 + lose);
    let l0 = child_at(x, 0);
    let r0 = child_at(x, 1);
    let l1 = child_at(x, 2);
    let r1 = child_at(x, 3);
    let a0 = e0.seed;
    let a1 = e1.seed;
    Correction {
        seed: dcf_node::corrected(1, a0, a1),
        word: word_correction(g.t1, g.v, b, e0.word, e1.word),
        flags: flag_corrections(l0.flag, l1.flag, r0.flag, r1.flag, b),
    }
}

// V - v1 Keep + v0 Keep + Sign × W. [SPEC 7.8]
fn next_v(t1: u32, v: u32, v0: u32, v1: u32, w: u32) -> u32
    ensures { result ≡ add (add (sub v v1) v0) (by_sign (odd t1) w) }
{
    base_words::add(
        base_words::add(base_words::sub(v, v1), v0),
        dcf_node::by_sign(t1, w),
    )
}

// Key making after the level whose correction is c.
fn kept(g: Making, c: Correction, b: u32, x: &[u32; 64]) -> Making
    requires { b < 2 }
    ensures { as_making result ≡ kept_by xors (unpacked c) (odd b) (as_making g)
        (opened_at (rows 4 x.now) 0) (opened_at (rows 4 x.now) 1) }
{
    let keep = b as usize;
    let k0 = child_at(x, keep);
    let k1 = child_at(x, 2 + keep);
    let e = c.seed;
    let a0 = k0.seed;
    let a1 = k1.seed;
    Making {
        s0: dcf_node::corrected(g.t0, a0, e),
        s1: dcf_node::corrected(g.t1, a1, e),
        t0: dcf_node::next_flag(g.t0, k0.flag, c, b),
        t1: dcf_node::next_flag(g.t1, k1.flag, c, b),
        v: next_v(g.t1, g.v, k0.word, k1.word, c.word),
    }
}

// Sign × (s1 - s0 - V), from the last seeds. [SPEC 7.13]
fn final_word(g: Making) -> u32
    ensures { result ≡ by_sign (odd g.t1) (sub (sub (first g.s1) (first g.s0)) g.v) }
{
    let a0 = g.s0;
    let a1 = g.s1;
    dcf_node::by_sign(g.t1, base_words::sub(base_words::sub(a1[0], a0[0]), g.v))
}

// The key for a point.
pub fn make(k0: [u32; 8], k1: [u32; 8], point: u32) -> Key
    ensures { result ≡ key_for k0 k1 point }
{
    let none = Correction {
        seed: [0; 8],
        word: 0,
        flags: 0,
    };
    let mut corrections = [none; 32];
    let mut x = [0u32; 64];
    let mut g = Making {
        s0: k0,
        s1: k1,
        t0: 0,
        t1: 1,
        v: 0,
    };
    for i in 0..32 {
        let b = dcf_node::level_bit(point, i);
        let level = i as u32 + 1;
        let s0 = g.s0;
        let s1 = g.s1;
        open_both(&mut x, level, s0, s1);
        let c = correction(g, b, &x);
        corrections[i] = c;
        g = kept(g, c, b, &x);
    }
    let last = final_word(g);
    Key { corrections, last }
}
