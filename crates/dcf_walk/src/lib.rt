// A party's value of a comparison key at an input: the walk of the input's bits from the highest,
// opening only the side taken. [SPEC 8.2]
#![tactic(auto)]

ghost use Rattle.std.specs.Prelude.{◌≡◌};
ghost use Rattle.base_algebra.specs.Bit.{odd};
ghost use Rattle.base_words.specs.Xor.{xors};
ghost use Rattle.dcf_function.specs.Dcf.{by_sign, taken as taken_by, total as total_of};
ghost use Rattle.dcf_node.specs.Node.{child, opened_block, node as node_of, first, unpacked, as_walk, value_at};

use chacha20_x2::Two;
use dcf_node::{Correction, Key, Walk};

// What a walk ends with: the first word of its seed, and the final word if its flag is set. Party 1
// negates the total. [SPEC 8.6, 8.7]
fn finished(w: Walk, last: u32, party: u32) -> u32
    ensures { result ≡ by_sign (odd party) (total_of xors node_of first last (as_walk w)) }
{
    let s = w.seed;
    let total = base_words::add(
        base_words::add(w.total, s[0]),
        base_words::only(w.flag, last),
    );
    dcf_node::by_sign(party, total)
}

// The value at u of the party whose key seed is `seed`.
// kept: key, seed and party apart, as a half has them: a struct would copy the key's 1284 bytes once more a check.
// kept: this beside `values`: one generic walk would take a trait of one or two walks, with a law and two impls, to
// share a loop of five lines; and two walks alone open two blocks at once.
pub fn value(key: Key, seed: [u32; 8], party: u32, u: u32) -> u32
    ensures { result ≡ value_at party key seed u }
{
    let corrections = key.corrections;
    let mut w = Walk {
        seed,
        flag: party,
        total: 0,
    };
    for i in 0..32 {
        let c = corrections[i];
        let d = dcf_node::level_bit(u, i);
        let level = i as u32 + 1;
        let s = w.seed;
        w = dcf_node::taken(w, c, d, chacha20_block::block(s, d, dcf_node::nonce(level)));
    }
    finished(w, key.last, party)
}

// A level of both walks, to side d and to side e: two blocks at once.
fn both_taken(w: (Walk, Walk), level: u32, c: Correction, d: u32, e: u32) -> (Walk, Walk)
    ensures a_value { as_walk result.0
        ≡ taken_by xors (unpacked c) (odd d) (child (opened_block level w.0.seed d)) (as_walk w.0) }
    ensures b_value { as_walk result.1
        ≡ taken_by xors (unpacked c) (odd e) (child (opened_block level w.1.seed e)) (as_walk w.1) }
{
    let nonce = dcf_node::nonce(level);
    let (a, b) = w;
    let s = a.seed;
    let t = b.seed;
    let blocks = chacha20_x2::two_blocks(Two {
        a: chacha20_block::start(s, d, nonce),
        b: chacha20_block::start(t, e, nonce),
    });
    (
        dcf_node::taken(a, c, d, blocks.a),
        dcf_node::taken(b, c, e, blocks.b),
    )
}

// The values at u and at v, in one walk.
pub fn values(key: Key, seed: [u32; 8], party: u32, u: u32, v: u32) -> (u32, u32)
    ensures first_value { result.0 ≡ value_at party key seed u }
    ensures second_value { result.1 ≡ value_at party key seed v }
{
    let corrections = key.corrections;
    let start = Walk {
        seed,
        flag: party,
        total: 0,
    };
    let mut w = (start, start);
    for i in 0..32 {
        let c = corrections[i];
        let d = dcf_node::level_bit(u, i);
        let e = dcf_node::level_bit(v, i);
        let level = i as u32 + 1;
        w = both_taken(w, level, c, d, e);
    }
    let (a, b) = w;
    (finished(a, key.last, party), finished(b, key.last, party))
}
