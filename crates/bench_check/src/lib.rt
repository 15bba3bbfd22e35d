// What a box computes in one check, and the making of a key, for programs in other languages:
// bench_check_c has it as C functions, which the benchmark links. They are no calls of 01 and stand in no
// door's archive. No function asks anything of its caller.
#![tactic(auto)]

ghost use Rattle.std.specs.Prelude.{◌≡◌};
ghost use Rattle.dcf_node.specs.Node.{key_for, value_at};
ghost use Rattle.measure_table.specs.Measure.{ordinary_width};
ghost use Rattle.share_vectors.specs.Share.{answer as answer_of};
ghost use Rattle.bench_check.specs.Check.{mask_fits, masked_over, word_or_zero};

use dcf_node::Key;
use measure_table::{ORDINARY_MARK, ORDINARY_WIDTH, Terms};

// The key for a point, from the key seeds of party 0 and 1.
pub fn check_key(k0: &[u32; 8], k1: &[u32; 8], point: u32) -> Key
    ensures { result ≡ key_for k0.now k1.now point }
{
    dcf_keys::make(*k0, *k1, point)
}

// The value at u of the party whose key seed is `seed`.
pub fn check_value(key: Key, seed: &[u32; 8], party: u32, u: u32) -> u32
    ensures { result ≡ value_at party key seed.now u }
{
    dcf_walk::value(key, *seed, party, u)
}

// The party's answer in an ordinary set, from the sum of both words.
pub fn check_answer(key: Key, seed: &[u32; 8], party: u32, z: u32) -> u32
    ensures { result ≡ answer_of ordinary_width party key seed.now z }
{
    share_answers::answer(ORDINARY_WIDTH, party, key, *seed, z)
}

// The vector v under the mask m, from the start of out. Where m or out is shorter than v it answers
// false, and nothing changes.
pub fn check_mask(v: &[u32], m: &[u32], out: &mut [u32]) -> bool
    ensures value { result ≡ mask_fits v.now m.now out.old }
    ensures out_after { out.new ≡ masked_over v.now m.now out.old }
{
    let n = v.len();
    if m.len() < n {
        return false;
    }
    if out.len() < n {
        return false;
    }
    share_vectors::add_vectors(n, v, m, out);
    true
}

// In an ordinary set, the word of the party whose vector is v, from the masked vectors mx and my and its shares sx and
// sy of the two masks. Where one of the four is shorter than v it answers 0.
pub fn check_word(
    code: u32,
    party: u32,
    c: u32,
    r: u32,
    v: &[u32],
    mx: &[u32],
    my: &[u32],
    sx: &[u32],
    sy: &[u32],
) -> u32
    ensures { result ≡ word_or_zero code party c r v.now
        mx.now my.now sx.now sy.now }
{
    let n = v.len();
    if mx.len() < n {
        return 0;
    }
    if my.len() < n {
        return 0;
    }
    if sx.len() < n {
        return 0;
    }
    if sy.len() < n {
        return 0;
    }
    let terms = Terms { code, n };
    let s = share_vectors::share_of(party, n, c, mx, my, sx, sy);
    share_answers::word(terms, ORDINARY_MARK, s, share_vectors::own(terms, v), r)
}
