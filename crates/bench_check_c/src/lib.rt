// bench_check's functions as C functions, for programs in other languages to link: the benchmark does. A
// slice is handed over as a pointer and a length; an array of fixed size as a pointer; a key as a struct
// by value. No function asks anything of its caller, as none there does.
#![tactic(auto)]

ghost use Rattle.std.specs.Prelude.{◌≡◌};
ghost use Rattle.dcf_node.specs.Node.{key_for, value_at};
ghost use Rattle.measure_table.specs.Measure.{ordinary_width};
ghost use Rattle.share_vectors.specs.Share.{answer as answer_of};
ghost use Rattle.bench_check.specs.Check.{mask_fits, masked_over, word_or_zero};

use dcf_node::Key;

// The key for a point, from the key seeds of party 0 and 1.
#[unsafe(no_mangle)]
pub extern "C" fn check_key(k0: &[u32; 8], k1: &[u32; 8], point: u32) -> Key
    ensures { result ≡ key_for k0.now k1.now point }
{
    bench_check::check_key(k0, k1, point)
}

// The value at u of the party whose key seed is `seed`.
#[unsafe(no_mangle)]
pub extern "C" fn check_value(key: Key, seed: &[u32; 8], party: u32, u: u32) -> u32
    ensures { result ≡ value_at party key seed.now u }
{
    bench_check::check_value(key, seed, party, u)
}

// The party's answer in an ordinary set, from the sum of both words.
#[unsafe(no_mangle)]
pub extern "C" fn check_answer(key: Key, seed: &[u32; 8], party: u32, z: u32) -> u32
    ensures { result ≡ answer_of ordinary_width party key seed.now z }
{
    bench_check::check_answer(key, seed, party, z)
}

// The vector v under the mask m, from the start of out. Where m or out is shorter than v it answers
// false, and nothing changes.
#[unsafe(no_mangle)]
pub extern "C" fn check_mask(v: &[u32], m: &[u32], out: &mut [u32]) -> bool
    ensures value { result ≡ mask_fits v.now m.now out.old }
    ensures out_after { out.new ≡ masked_over v.now m.now out.old }
{
    bench_check::check_mask(v, m, out)
}

// In an ordinary set, the word of the party whose vector is v, from the masked vectors mx and my and its shares sx and
// sy of the two masks. Where one of the four is shorter than v it answers 0.
#[unsafe(no_mangle)]
pub extern "C" fn check_word(
    code: u32,
    party: u32,
    c: u32,
    r: u32,
    v: &[u32],
    mx: &[u32],
    my: &[u32],
    sx: &[u32],
    sy: &[u32],
) -> u32
    ensures { result ≡ word_or_zero code party c r v.now
        mx.now my.now sx.now sy.now }
{
    bench_check::check_word(code, party, c, r, v, mx, my, sx, sy)
}
