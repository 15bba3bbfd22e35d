// Two ChaCha20 blocks at once, for a walk that wants two at each level and cannot start a level
// before the last is done.
//
// A table z holds both states. A row of them is eight words, four of each state, and rows stand 16
// words apart. LLVM makes one or two vector operations of an operation on a row, and keeps the rows
// in registers: two blocks then take little more than half the time of two calls of chacha20_block::block.
// Where rows stood side by side LLVM turned two of them at once with AVX-512, and had to go through
// memory for that: three times slower.
#![tactic(auto)]

ghost use Rattle.std.specs.Prelude.{◌≡◌, ◌+◌, ◌≤◌, ◌<◌, take};
ghost use Rattle.chacha20_rounds.specs.Rounds.{words, quarter_at, double_round, rounds, added, block_from};
ghost use Rattle.chacha20_x2.specs.Pair.{four_at, put_four, left_by, half, put, columns as columns_of};
ghost use Rattle.chacha20_x2.specs.Pair.{turned as turned_at, turned_rows};

use chacha20_rounds::{Four, State};

// kept: a pair with names, which says plainer than (State, State) what `two_blocks` promises of each.
#[derive(Clone, Copy)]
pub struct Two {
    pub a: State,
    pub b: State,
}

// Four words of the table, from `at` on and `step` apart.
fn four(z: &[u32; 128], at: usize, step: usize) -> Four
    requires { step + (step + (step + at)) < 128 }
    ensures { result ≡ four_at at step z.now }
{
    let i = step + at;
    let j = step + i;
    let k = step + j;
    Four {
        a: z[at],
        b: z[i],
        c: z[j],
        d: z[k],
    }
}

fn set_four(z: &mut [u32; 128], at: usize, step: usize, q: Four)
    requires { step + (step + (step + at)) < 128 }
    ensures { z.new ≡ put_four at step q z.old }
{
    let i = step + at;
    let j = step + i;
    let k = step + j;
    z[at] = q.a;
    z[i] = q.b;
    z[j] = q.c;
    z[k] = q.d;
}

fn row(a: u32, b: u32, c: u32, d: u32) -> Four
    ensures { result ≡ record { a = a; b = b; c = c; d = d } }
{
    Four { a, b, c, d }
}

// Row r of a state is put r places to the left, as a diagonal round leaves it. So a double round
// can end with a round: where it ended with rows being turned, LLVM took them apart into words.
fn set_state(z: &mut [u32; 128], at: usize, t: State)
    requires { at + 52 ≤ 128 }
    ensures { z.new ≡ put at t z.old }
{
    set_four(z, at, 1, row(t.x0, t.x1, t.x2, t.x3));
    set_four(z, 16 + at, 1, row(t.x5, t.x6, t.x7, t.x4));
    set_four(z, 32 + at, 1, row(t.x10, t.x11, t.x8, t.x9));
    set_four(z, 48 + at, 1, row(t.x15, t.x12, t.x13, t.x14));
}

// The state whose rows begin at `at`, with t added.
fn sum_at(z: &[u32; 128], at: usize, t: State) -> State
    requires { at + 52 ≤ 128 }
    ensures { words result ≡ added (half at z.now) (words t) }
{
    let p = four(z, at, 1);
    let q = four(z, 16 + at, 1);
    let r = four(z, 32 + at, 1);
    let s = four(z, 48 + at, 1);
    let u = State {
        x0: p.a,
        x1: p.b,
        x2: p.c,
        x3: p.d,
        x4: q.d,
        x5: q.a,
        x6: q.b,
        x7: q.c,
        x8: r.c,
        x9: r.d,
        x10: r.a,
        x11: r.b,
        x12: s.b,
        x13: s.c,
        x14: s.d,
        x15: s.a,
    };
    chacha20_rounds::add_states(u, t)
}

// Two quarter rounds more, stored past the states' rows, where nothing reads them. Without them the
// loop of `columns` is so short that LLVM unrolls it before it looks for loops to vectorise. Once it
// has vectorised the loop it sees that they are not read, and leaves them out.
fn pad(z: &mut [u32; 128], j: usize, q: Four)
    requires { j < 8 }
    ensures { take 64 z.new ≡ take 64 z.old }
{
    let r = chacha20_rounds::quarter_round(q.a, q.b, q.c, q.d);
    let s = chacha20_rounds::quarter_round(r.a, r.b, r.c, r.d);
    set_four(z, 64 + j, 8, s);
}

fn quarter_at(z: &mut [u32; 128], j: usize)
    requires { j < 8 }
    ensures { take 64 z.new ≡ quarter_at j (16 + j) (32 + j) (48 + j) (take 64 z.old) }
{
    let p = four(z, j, 16);
    let q = chacha20_rounds::quarter_round(p.a, p.b, p.c, p.d);
    set_four(z, j, 16, q);
    pad(z, j, q);
}

// A round on the columns of both states as the rows stand.
fn columns(z: &mut [u32; 128])
    ensures { take 64 z.new ≡ columns_of 8 (take 64 z.old) }
{
    for j in 0..8 {
        quarter_at(z, j);
    }
}

// A row's words, turned to the left by one, two or three places.
// kept: `by` is a number of places, as the definition `left_by` counts them, and no choice of a step.
fn turned(q: Four, by: usize) -> Four
    requires { (0 < by) × (by < 4) }
    ensures { result ≡ left_by by q }
{
    match by {
        1 => row(q.b, q.c, q.d, q.a),
        2 => row(q.c, q.d, q.a, q.b),
        _ => row(q.d, q.a, q.b, q.c),
    }
}

// kept: `by`, as in `turned`.
fn turn(z: &mut [u32; 128], at: usize, by: usize)
    requires { (at + 4 ≤ 64) × (0 < by) × (by < 4) }
    ensures { take 64 z.new ≡ turned_at at by (take 64 z.old) }
{
    let q = turned(four(z, at, 1), by);
    set_four(z, at, 1, q);
}

fn turn_rows(z: &mut [u32; 128], b: usize, d: usize)
    requires { (0 < b) × (b < 4) × (0 < d) × (d < 4) }
    ensures { take 64 z.new ≡ turned_rows b d (take 64 z.old) }
{
    turn(z, 16, b);
    turn(z, 20, b);
    turn(z, 32, 2);
    turn(z, 36, 2);
    turn(z, 48, d);
    turn(z, 52, d);
}

fn double_round(z: &mut [u32; 128])
    ensures z_after { half 0 z.new ≡ double_round (half 0 z.old) }
    ensures z_after_2 { half 4 z.new ≡ double_round (half 4 z.old) }
{
    turn_rows(z, 3, 1);
    columns(z);
    turn_rows(z, 1, 3);
    columns(z);
}

fn twenty_rounds(z: &mut [u32; 128])
    ensures z_after { half 0 z.new ≡ rounds 10 (half 0 z.old) }
    ensures z_after_2 { half 4 z.new ≡ rounds 10 (half 4 z.old) }
{
    for _ in 0..10u32 {
        double_round(z);
    }
}

// Two starting states, of any keys, counters and nonces, become their blocks.
pub fn two_blocks(t: Two) -> Two
    ensures a_value { words result.a ≡ block_from (words t.a) }
    ensures b_value { words result.b ≡ block_from (words t.b) }
{
    let mut z = [0; 128];
    set_state(&mut z, 0, t.a);
    set_state(&mut z, 4, t.b);
    twenty_rounds(&mut z);
    Two {
        a: sum_at(&z, 0, t.a),
        b: sum_at(&z, 4, t.b),
    }
}
