// Poly1305, the one-time authenticator of RFC 8439, 2.5: the tag of a message under a key of
// 32 bytes that is used once. Nothing here branches on, or indexes by, a byte of the key or of
// the message.
#![tactic(auto)]

ghost use Rattle.std.specs.Prelude.{◌≡◌, ◌+◌, ◌-◌, ◌*◌, ◌%◌, ◌/◌, ◌^◌, ◌<◌, ◌≤◌, ◌++◌, length, take, drop, replicate};
ghost use Rattle.base_words.specs.Numbers.{number};
ghost use Rattle.base_algebra.specs.Mod.{Mod};
ghost use Rattle.poly1305_limbs.specs.Limbs.{prime, value, words4, mod_prime};
ghost use Rattle.poly1305_mac.specs.Poly1305.{r_of, s_of, piece, pieces, pad16, absorb_all, tag_of, mac as mac_of};
ghost use Rattle.poly1305_mac.specs.Blocks.{unreduced};

use poly1305_limbs::{BIT, Exact, Reduced};

// The two halves of a key: r, clamped, in limbs; and s, in words, lowest first.
#[derive(Clone, Copy)]
pub struct OneTimeKey {
    pub r: Reduced,
    pub s: [u32; 4],
}

// The 16 bytes at `at`, and `top` above them.
// kept: (d) `top` is a number with a bound, `BIT` or 0: a type for it would be one more name for a number.
pub fn block(m: &[u8], at: usize, top: u64) -> Exact
    requires at_in_bounds { at + 16 ≤ length m.now }
    requires top_bound { top ≤ 2 ^ 24 }
    ensures { value result.limbs ≡ number (take 16 (drop at m.now)) + top * 2 ^ 104 }
{
    let w0 = base_slices::load(m, at);
    let w1 = base_slices::load(m, at + 4);
    let w2 = base_slices::load(m, at + 8);
    let w3 = base_slices::load(m, at + 12);
    poly1305_limbs::split([w0, w1, w2, w3], top)
}

// The accumulator after the 16 bytes at `at`, with `top` above them.
// kept: (d) h and r apart: a pair of them would be made anew for each block, since h alone changes.
fn step(h: Reduced, r: Reduced, m: &[u8], at: usize, top: u64) -> Reduced
    requires at_in_bounds { at + 16 ≤ length m.now }
    requires top_bound { top ≤ 2 ^ 24 }
    ensures { Mod prime (value result.limbs)
        ((value h.limbs + (number (take 16 (drop at m.now)) + top * 2 ^ 104)) * value r.limbs) }
{
    let c = block(m, at, top);
    let e = poly1305_limbs::plus(h, c.limbs);
    let d = poly1305_limbs::multiply(e, r);
    poly1305_limbs::reduce(d)
}

// The accumulator after the whole blocks of m, with `top` above each. This loop alone calls `step`,
// so that the compiler puts it inside and keeps the limbs in registers.
// kept: (d) an index, not chunks_exact: `block` reads at a place, as poly1305_x4 needs, and `unreduced` counts pieces.
fn absorb_blocks(h: Reduced, r: Reduced, m: &[u8], top: u64) -> Reduced
    requires { top ≤ 2 ^ 24 }
    ensures { Mod prime (value result.limbs)
        (unreduced (value r.limbs) (top * 2 ^ 104) (value h.limbs) m.now (length m.now / 16)) }
{
    let mut a = h;
    for i in 0..m.len() / 16 {
        a = step(a, r, m, 16 * i, top);
    }
    a
}

// What follows the whole pieces of m, with zeros up to 16 bytes.
fn rest(m: &[u8]) -> [u8; 16]
    ensures { result ≡ piece m.now (length m.now / 16)
        ++ replicate (16 - length m.now % 16) 0 }
{
    let at = m.len() - m.len() % 16;
    let mut b = [0u8; 16];
    base_slices::copy(&mut b, 0, &m[at..]);
    b
}

// The accumulator after m, whose last piece is filled with zeros to 16 bytes, as 2.8 does with
// the additional data and the ciphertext.
pub fn absorb_padded(h: Reduced, r: Reduced, m: &[u8]) -> Reduced
    ensures { Mod prime (value result.limbs)
        (absorb_all (value r.limbs) (value h.limbs) (pieces (m.now ++ pad16 m.now))) }
{
    let a = absorb_blocks(h, r, m, BIT);
    if m.len() % 16 == 0 {
        return a;
    }
    let b = rest(m);
    absorb_blocks(a, r, &b, BIT)
}

// kept: (d) `absorb` and `absorb_padded` apart: they share `absorb_blocks` and `rest`, and one of both would branch
// on a flag for the rest of their lines.
// The accumulator after m. A last piece of n < 16 bytes has its bit at byte n, and none above.
fn absorb(h: Reduced, r: Reduced, m: &[u8]) -> Reduced
    ensures { Mod prime (value result.limbs) (absorb_all (value r.limbs) (value h.limbs) (pieces m.now)) }
{
    let a = absorb_blocks(h, r, m, BIT);
    let n = m.len() % 16;
    if n == 0 {
        return a;
    }
    let mut b = rest(m);
    b[n] = 1;
    absorb_blocks(a, r, &b, 0)
}

// A word without its top four bits.
const CLAMPED: u32 = 1 << 28;

// A word of r: the top four bits of its last byte and the bottom two of its first are cleared.
fn clamped(w: u32) -> u32
    ensures { result ≡ w % 2 ^ 28 / 4 * 4 }
{
    w % CLAMPED / 4 * 4
}

// r, clamped. Its first word keeps its bottom bits.
fn clamped_r(k: &[u8]) -> Reduced
    requires { 16 ≤ length k.now }
    ensures { value result.limbs ≡ r_of k.now }
{
    let w0 = base_slices::load(k, 0) % CLAMPED;
    let w1 = clamped(base_slices::load(k, 4));
    let w2 = clamped(base_slices::load(k, 8));
    let w3 = clamped(base_slices::load(k, 12));
    let exact = poly1305_limbs::split([w0, w1, w2, w3], 0);
    let limbs = exact.limbs;
    Reduced { limbs }
}

// r and s of a key.
pub fn key(k: &[u8; 32]) -> OneTimeKey
    ensures r_value { value result.r.limbs ≡ r_of k.now }
    ensures s_value { words4 result.s ≡ s_of k.now }
{
    let r = clamped_r(k);
    let s0 = base_slices::load(k, 16);
    let s1 = base_slices::load(k, 20);
    let s2 = base_slices::load(k, 24);
    let s3 = base_slices::load(k, 28);
    OneTimeKey {
        r,
        s: [s0, s1, s2, s3],
    }
}

// The tag that the accumulator h and s give.
pub fn tag(h: Reduced, s: [u32; 4]) -> [u8; 16]
    ensures { result ≡ tag_of (mod_prime (value h.limbs)) (words4 s) }
{
    let a = poly1305_limbs::remainder(h);
    let t = poly1305_limbs::add_s(a, s);
    let mut out = [0u8; 16];
    base_slices::store_all(&mut out, 0, &t);
    out
}

// The tag of m under a one-time key.
pub fn mac(k: &[u8; 32], m: &[u8]) -> [u8; 16]
    ensures { result ≡ mac_of k.now m.now }
{
    let halves = key(k);
    let a = absorb(Reduced::ZERO, halves.r, m);
    tag(a, halves.s)
}
