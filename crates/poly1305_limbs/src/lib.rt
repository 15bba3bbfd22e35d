// Arithmetic modulo 2^130 - 5, for Poly1305: a number is five limbs of 26 bits, lowest first.
// Each stands in a u64, so that the five products of a column are summed with no carry between them.
// Nothing here branches on a limb.
#![tactic(auto)]

ghost use Rattle.std.specs.Prelude.{ℕ, ◌≡◌, ◌+◌, ◌*◌, ◌^◌, ◌<◌, ◌≤◌};
ghost use Rattle.base_algebra.specs.Mod.{Mod};
ghost use Rattle.poly1305_limbs.specs.Limbs.{prime, value, words4, Below, Limbs, column as column_of, over_prime};
ghost use Rattle.poly1305_limbs.specs.Limbs.{mod_prime, low128, Carried};

// What a limb and a word count up to.
const LIMB: u64 = 1 << 26;

const WORD: u64 = 1 << 32;

// The bit above a whole piece, at 2^128, in units of the last limb.
pub const BIT: u64 = 1 << 24;

// Limbs after the carries: 26 bits, and in one of them a little more. An accumulator has these, and r.
#[derive(Clone, Copy)]
pub struct Reduced {
    pub limbs: [u64; 5],
    pub ghost in_range: { Limbs limbs },
}

impl Reduced {
    // What an accumulator begins with.
    pub const ZERO: Reduced = Reduced { limbs: [0; 5] };
}

// Limbs of 26 bits each: a piece, or a remainder.
#[derive(Clone, Copy)]
pub struct Exact {
    pub limbs: [u64; 5],
    pub ghost in_range: { Below (2 ^ 26) limbs },
}

// Four words, lowest first, in limbs: the first 26, 20, 14 and 8 bits of a word, those below LIMB, 1048576,
// 16384 and 256, end a limb. `top` is what stands above them, in units of the last limb: a whole piece has
// `BIT` there.
pub fn split(w: [u32; 4], top: u64) -> Exact
    requires { top ≤ 2 ^ 24 }
    ensures { value result.limbs ≡ words4 w + top * 2 ^ 104 }
{
    let w0 = u64::from(w[0]);
    let w1 = u64::from(w[1]);
    let w2 = u64::from(w[2]);
    let w3 = u64::from(w[3]);
    let limbs = [
        w0 % LIMB,
        w0 / LIMB + w1 % 1048576 * 64,
        w1 / 1048576 + w2 % 16384 * 4096,
        w2 / 16384 + w3 % 256 * 262144,
        w3 / 256 + top,
    ];
    Exact { limbs }
}

// kept: (d) sums and products have their bounds in clauses: a sum, r and a lane are factors, and a type for them
// would be made anew of each.
// The sum, before its carries. c is a piece, or a lane of `poly1305_x4`, which may have 27 bits.
pub fn plus(h: Reduced, c: [u64; 5]) -> [u64; 5]
    requires { Below (2 ^ 27 + 2 ^ 13) c }
    ensures below { Below (2 ^ 28) result }
    ensures adds { (n : ℕ) → Below n c → Below (2 ^ 26 + 2 ^ 13 + n) result }
    ensures result_value { value result ≡ value h.limbs + value c }
{
    let a = h.limbs;
    [
        a[0] + c[0],
        a[1] + c[1],
        a[2] + c[2],
        a[3] + c[3],
        a[4] + c[4],
    ]
}

// kept: (d) five factors, not an array: `multiply` turns them for each column and would make five.
fn column(h: [u64; 5], b0: u64, b1: u64, b2: u64, b3: u64, b4: u64) -> u64
    requires below { Below (2 ^ 28) h }
    requires b0_bound { (b0 < 2 ^ 30) × (b1 < 2 ^ 30) × (b2 < 2 ^ 30) × (b3 < 2 ^ 30) × (b4 < 2 ^ 30) }
    ensures upper_bound { result < 2 ^ 61 }
    ensures value { result ≡ column_of h b0 b1 b2 b3 b4 }
{
    h[0] * b0 + h[1] * b1 + h[2] * b2 + h[3] * b3 + h[4] * b4
}

// The product, before its carries. What stands at 2^130 and above comes back 5 times, since
// 2^130 is 5 modulo 2^130 - 5.
pub fn multiply(h: [u64; 5], factor: Reduced) -> [u64; 5]
    requires { Below (2 ^ 28) h }
    ensures below { Below (2 ^ 61) result }
    ensures fact { Mod prime (value result) (value h * value factor.limbs) }
{
    let r = factor.limbs;
    let s1 = 5 * r[1];
    let s2 = 5 * r[2];
    let s3 = 5 * r[3];
    let s4 = 5 * r[4];
    let d0 = column(h, r[0], s4, s3, s2, s1);
    let d1 = column(h, r[1], r[0], s4, s3, s2);
    let d2 = column(h, r[2], r[1], r[0], s4, s3);
    let d3 = column(h, r[3], r[2], r[1], r[0], s4);
    let d4 = column(h, r[4], r[3], r[2], r[1], r[0]);
    [d0, d1, d2, d3, d4]
}

// The limbs of d and x, each with what the one below has beyond its 26 bits.
fn carried(d: [u64; 5], x: u64) -> [u64; 5]
    requires below { Below (2 ^ 61) d }
    requires x_bound { x ≤ 5 }
    ensures below_62 { Below (2 ^ 62) result }
    ensures carried { Carried d x result }
{
    let d0 = d[0] + x;
    let d1 = d[1] + d0 / LIMB;
    let d2 = d[2] + d1 / LIMB;
    let d3 = d[3] + d2 / LIMB;
    let d4 = d[4] + d3 / LIMB;
    [d0, d1, d2, d3, d4]
}

// The carries: each limb keeps its lowest 26 bits and hands the rest on, the last one 5 times to
// the first. What the first then has too much goes to the second.
pub fn reduce(d: [u64; 5]) -> Reduced
    requires { Below (2 ^ 61) d }
    ensures { Mod prime (value result.limbs) (value d) }
{
    let c = carried(d, 0);
    let e0 = c[0] % LIMB + 5 * (c[4] / LIMB);
    let limbs = [
        e0 % LIMB,
        c[1] % LIMB + e0 / LIMB,
        c[2] % LIMB,
        c[3] % LIMB,
        c[4] % LIMB,
    ];
    Reduced { limbs }
}

// 1 where h is 2^130 - 5 or more, and 0 else: what h + 5 has at 2^130.
fn over_prime(h: Reduced) -> u64
    ensures upper_bound { result < 2 }
    ensures value { result ≡ over_prime (value h.limbs) }
{
    let d = carried(h.limbs, 5);
    d[4] / LIMB
}

// h modulo 2^130 - 5. Where h is that or more, h + 5 without what it has at 2^130 is the remainder,
// since h is less than twice that.
pub fn remainder(h: Reduced) -> Exact
    ensures { value result.limbs ≡ mod_prime (value h.limbs) }
{
    let q = over_prime(h);
    let d = carried(h.limbs, 5 * q);
    let limbs = [
        d[0] % LIMB,
        d[1] % LIMB,
        d[2] % LIMB,
        d[3] % LIMB,
        d[4] % LIMB,
    ];
    Exact { limbs }
}

// h + s modulo 2^128, in words. A word takes the lowest 6, 12, 18 and 24 bits of the limb above it: those
// below 64, 4096, 262144 and 16777216.
pub fn add_s(h: Exact, s: [u32; 4]) -> [u32; 4]
    ensures { words4 result ≡ low128 (value h.limbs + words4 s) }
{
    let a = h.limbs;
    let t0 = a[0] + a[1] % 64 * LIMB + u64::from(s[0]);
    let t1 = a[1] / 64 + a[2] % 4096 * 1048576 + u64::from(s[1]) + t0 / WORD;
    let t2 = a[2] / 4096 + a[3] % 262144 * 16384 + u64::from(s[2]) + t1 / WORD;
    let t3 = a[3] / 262144 + a[4] % 16777216 * 256 + u64::from(s[3]) + t2 / WORD;
    [
        (t0 % WORD) as u32,
        (t1 % WORD) as u32,
        (t2 % WORD) as u32,
        (t3 % WORD) as u32,
    ]
}
