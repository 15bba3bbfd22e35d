// Poly1305 four blocks at a time, RFC 8439, 2.5: four accumulators side by side, each multiplied by
// r^4 and given every fourth block, and combined at the end. Limb i of lane l stands at 4 * i + l of
// 20, and the loop over the lanes is innermost, so that LLVM makes one vector operation of the four.
// Nothing here branches on, or indexes by, a limb.
#![tactic(auto)]

ghost use Rattle.std.specs.Prelude.{◌≡◌, ◌+◌, ◌*◌, ◌%◌, ◌^◌, ◌<◌, ◌≤◌, [], ◌∷◌, ◌++◌, length, get_or, set};
ghost use Rattle.base_algebra.specs.Mod.{Mod};
ghost use Rattle.poly1305_limbs.specs.Limbs.{prime, value, Below};
ghost use Rattle.poly1305_mac.specs.Poly1305.{pieces, pad16, absorb_all};
ghost use Rattle.poly1305_x4.specs.Poly4.{Held, Adds, HeldAll, NextAll, First, five, rows, power4, combined_rows};

use poly1305_limbs::{BIT, Reduced};

const WORD: u64 = 1 << 32;

// kept: (d) lanes of their own beside chacha20_lanes': five limbs of u64 for 16 words of u32, and a remainder.
// kept: (d) `Held` is a clause: it is a fact over one of the four rows, and over a block as well.
// One lane's limbs. LLVM has to see that each is below 2^32 to multiply four lanes at once, and the
// remainder, which changes nothing, says so.
fn lane(x: &[u64; 20], l: usize) -> [u64; 5]
    requires l_bound { l < 4 }
    requires held { Held (get_or (rows x.now) l []) }
    ensures { result ≡ get_or (rows x.now) l [] }
{
    [
        x[l] % WORD,
        x[4 + l] % WORD,
        x[8 + l] % WORD,
        x[12 + l] % WORD,
        x[16 + l] % WORD,
    ]
}

fn set_lane(x: &mut [u64; 20], l: usize, h: [u64; 5])
    requires { l < 4 }
    ensures { rows x.new ≡ set (rows x.old) l (five h) }
{
    x[l] = h[0];
    x[4 + l] = h[1];
    x[8 + l] = h[2];
    x[12 + l] = h[3];
    x[16 + l] = h[4];
}

// h × r + c.
fn next(h: [u64; 5], r: Reduced, c: [u64; 5]) -> [u64; 5]
    requires below { Below (2 ^ 28) h }
    requires held { Held c }
    ensures adds { Adds c result }
    ensures fact { Mod prime (value result) (value h * value r.limbs + value c) }
{
    let d = poly1305_limbs::multiply(h, r);
    let e = poly1305_limbs::reduce(d);
    poly1305_limbs::plus(e, c)
}

// Four blocks more, those at `at`: each lane by r and its block. LLVM vectorises this loop.
fn step4(x: &mut [u64; 20], r: Reduced, m: &[u8], at: usize)
    requires at_in_bounds { at + 64 ≤ length m.now }
    requires held_all { HeldAll (rows x.old) }
    ensures { NextAll (value r.limbs) m.now at (rows x.old) (rows x.new) }
{
    for l in 0..4 {
        let h = lane(x, l);
        let c = poly1305_mac::block(m, at + 16 * l, BIT);
        let a = next(h, r, c.limbs);
        set_lane(x, l, a);
    }
}

// r^4.
fn fourth(r: Reduced) -> Reduced
    ensures { Mod prime (value result.limbs) (power4 (value r.limbs)) }
{
    let d = poly1305_limbs::multiply(r.limbs, r);
    let r2 = poly1305_limbs::reduce(d);
    let e = poly1305_limbs::multiply(r2.limbs, r2);
    poly1305_limbs::reduce(e)
}

fn side_by_side(a: [u64; 5], b: [u64; 5], c: [u64; 5], d: [u64; 5]) -> [u64; 20]
    ensures { rows result ≡ five a ∷ five b ∷ five c ∷ five d ∷ [] }
{
    [
        a[0], b[0], c[0], d[0], a[1], b[1], c[1], d[1], a[2], b[2], c[2], d[2], a[3], b[3], c[3],
        d[3], a[4], b[4], c[4], d[4],
    ]
}

// The lanes after the first four blocks: lane 0 starts at the accumulator.
fn first4(h: Reduced, m: &[u8]) -> [u64; 20]
    requires { 64 ≤ length m.now }
    ensures { First (value h.limbs) m.now (rows result) }
{
    let b0 = poly1305_mac::block(m, 0, BIT);
    let b1 = poly1305_mac::block(m, 16, BIT);
    let b2 = poly1305_mac::block(m, 32, BIT);
    let b3 = poly1305_mac::block(m, 48, BIT);
    let a = poly1305_limbs::plus(h, b0.limbs);
    side_by_side(a, b1.limbs, b2.limbs, b3.limbs)
}

fn combine(x: &[u64; 20], r: Reduced) -> Reduced
    requires { HeldAll (rows x.now) }
    ensures { Mod prime (value result.limbs) (combined_rows (value r.limbs) (rows x.now)) }
{
    let x0 = lane(x, 0);
    let x1 = lane(x, 1);
    let x2 = lane(x, 2);
    let x3 = lane(x, 3);
    let a1 = next(x0, r, x1);
    let a2 = next(a1, r, x2);
    let a3 = next(a2, r, x3);
    let d = poly1305_limbs::multiply(a3, r);
    poly1305_limbs::reduce(d)
}

// The accumulator after m, a whole number of four blocks.
fn absorb4(h: Reduced, r: Reduced, m: &[u8]) -> Reduced
    requires { length m.now % 64 ≡ 0 }
    ensures { Mod prime (value result.limbs) (absorb_all (value r.limbs) (value h.limbs) (pieces m.now)) }
{
    if m.len() < 64 {
        return h;
    }
    let r4 = fourth(r);
    let mut x = first4(h, m);
    for g in 1..m.len() / 64 {
        step4(&mut x, r4, m, 64 * g);
    }
    combine(&x, r)
}

// The accumulator after m, whose last piece is filled with zeros to 16 bytes: what
// `poly1305_mac::absorb_padded` gives.
pub fn absorb_padded(h: Reduced, r: Reduced, m: &[u8]) -> Reduced
    ensures { Mod prime (value result.limbs)
        (absorb_all (value r.limbs) (value h.limbs) (pieces (m.now ++ pad16 m.now))) }
{
    let n = m.len() - m.len() % 64;
    let a = absorb4(h, r, &m[..n]);
    poly1305_mac::absorb_padded(a, r, &m[n..])
}
