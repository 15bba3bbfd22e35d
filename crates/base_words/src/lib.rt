// A word is a u32; sums, differences and products are taken modulo 2^32 (01, "Measures"). [SPEC 2.1, 2.2]
// kept: (a) add, sub and rotate_left: u32's methods, with contracts over the definitions that the claims are over.
#![tactic(auto)]

ghost use Rattle.std.specs.Prelude.{◌≡◌, ◌<◌};
ghost use Rattle.base_algebra.specs.Word.{add as add_of, sub as sub_of, mul as mul_of};
ghost use Rattle.base_algebra.specs.Bit.{only as only_if, odd};
ghost use Rattle.base_words.specs.Bytes.{rotl};

pub fn add(a: u32, b: u32) -> u32
    ensures { result ≡ add_of a b }
{
    a.wrapping_add(b)
}

pub fn sub(a: u32, b: u32) -> u32
    ensures { result ≡ sub_of a b }
{
    a.wrapping_sub(b)
}

// kept: (a) a helper over u64, as SPEC 31.6 asks.
pub fn mul(a: u32, b: u32) -> u32
    ensures { result ≡ mul_of a b }
{
    ((a as u64) * (b as u64) % 4294967296) as u32
}

// A word rotated left by n bits.
pub fn rotate_left(x: u32, n: u32) -> u32
    requires { (0 < n) × (n < 32) }
    ensures { result ≡ rotl n x }
{
    x.rotate_left(n)
}

// x if the flag is set, else 0: only the lowest bit of a flag counts, and nothing branches on it.
pub fn only(flag: u32, x: u32) -> u32
    ensures { result ≡ only_if (odd flag) x }
{
    x & sub(0, flag & 1)
}
