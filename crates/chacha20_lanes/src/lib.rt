// ChaCha20 states side by side in one array of words, four or eight of them: one read, one written. Word w of
// state l of n stands at n * w + l, so that LLVM makes one vector operation of the n states' words.
#![tactic(auto)]

ghost use Rattle.std.specs.Prelude.{◌≡◌, [], get_or, set, ◌+◌, ◌*◌, ◌/◌, ◌<◌};
ghost use Rattle.chacha20_rounds.specs.Rounds.{words};
ghost use Rattle.chacha20_lanes.specs.Lanes.{rows, four_at, put_four};

use chacha20_rounds::{Four, State};

// Four words of a state, from the one at `at` on.
fn four<const W: usize>(x: &[u32; W], at: usize) -> Four
    requires { 3 * (W / 16) + at < W }
    ensures { result ≡ four_at (W / 16) at x.now }
{
    let n = W / 16;
    Four {
        a: x[at],
        b: x[n + at],
        c: x[2 * n + at],
        d: x[3 * n + at],
    }
}

pub fn lane<const W: usize>(x: &[u32; W], l: usize) -> State
    requires { l < W / 16 }
    ensures { words result ≡ get_or (rows (W / 16) x.now) l [] }
{
    let n = W / 16;
    let p = four(x, l);
    let q = four(x, 4 * n + l);
    let r = four(x, 8 * n + l);
    let s = four(x, 12 * n + l);
    State {
        x0: p.a,
        x1: p.b,
        x2: p.c,
        x3: p.d,
        x4: q.a,
        x5: q.b,
        x6: q.c,
        x7: q.d,
        x8: r.a,
        x9: r.b,
        x10: r.c,
        x11: r.d,
        x12: s.a,
        x13: s.b,
        x14: s.c,
        x15: s.d,
    }
}

// kept: four words and no Four: the definition `put_four` takes them so.
fn set_four<const W: usize>(x: &mut [u32; W], at: usize, a: u32, b: u32, c: u32, d: u32)
    requires { 3 * (W / 16) + at < W }
    ensures { x.new ≡ put_four (W / 16) at a b c d x.old }
{
    let n = W / 16;
    x[at] = a;
    x[n + at] = b;
    x[2 * n + at] = c;
    x[3 * n + at] = d;
}

pub fn set_lane<const W: usize>(x: &mut [u32; W], l: usize, t: State)
    requires { l < W / 16 }
    ensures { rows (W / 16) x.new ≡ set (rows (W / 16) x.old) l (words t) }
{
    let n = W / 16;
    set_four(x, l, t.x0, t.x1, t.x2, t.x3);
    set_four(x, 4 * n + l, t.x4, t.x5, t.x6, t.x7);
    set_four(x, 8 * n + l, t.x8, t.x9, t.x10, t.x11);
    set_four(x, 12 * n + l, t.x12, t.x13, t.x14, t.x15);
}
