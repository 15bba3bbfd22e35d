// Words in byte slices, little-endian (01, "Measures"): loads and stores, and copies and compares of
// bytes. [SPEC 2.5]
// kept: load, store, least, bytes_32: the library's methods, with contracts that the crates above cite.
// kept: equal: `==` need not look at every byte, and how long it takes would tell where two differ.
#![tactic(auto)]

ghost use Rattle.std.specs.Prelude.{◌≡◌, ◌+◌, ◌*◌, ◌<◌, ◌≤◌, min, length};
ghost use Rattle.base_words.specs.List.{over, same};
ghost use Rattle.base_words.specs.Bytes.{le32, bytes_of, word_at};

// The word whose four bytes stand at `at`, lowest first.
pub fn load(b: &[u8], at: usize) -> u32
    requires { at + 4 ≤ length b.now }
    ensures { result ≡ word_at b.now at }
{
    u32::from_le_bytes([b[at], b[at + 1], b[at + 2], b[at + 3]])
}

// The four bytes of x over those at `at`, lowest first.
pub fn store(out: &mut [u8], at: usize, x: u32)
    requires { at + 4 ≤ length out.old }
    ensures { out.new ≡ over at (le32 x) out.old }
{
    out[at..at + 4].copy_from_slice(&x.to_le_bytes());
}

// The bytes of all of w over those from `at` on.
pub fn store_all(out: &mut [u8], at: usize, w: &[u32])
    requires { at + 4 * length w.now ≤ length out.old }
    ensures { out.new ≡ over at (bytes_of w.now) out.old }
{
    for i in 0..w.len() {
        store(out, at + 4 * i, w[i]);
    }
}

// All of src over the bytes of dst from `at` on.
// kept: (a) byte by byte: with `copy_from_slice` the archive for C asks for memmove where a half's blocks are opened,
// and a host is promised that it needs no more than c/door.h says.
pub fn copy(dst: &mut [u8], at: usize, src: &[u8])
    requires { at + length src.now ≤ length dst.old }
    ensures { dst.new ≡ over at src.now dst.old }
{
    for i in 0..src.len() {
        dst[at + i] = src[i];
    }
}

// Whether two slices hold the same bytes. Every byte is looked at, so that how long it takes
// tells nothing of where they differ.
pub fn equal(a: &[u8], b: &[u8]) -> bool
    ensures { result ≡ same a.now b.now }
{
    if a.len() != b.len() {
        return false;
    }
    let mut all = true;
    for i in 0..a.len() {
        all &= a[i] == b[i];
    }
    all
}

pub fn least(a: usize, b: usize) -> usize
    ensures { result ≡ min a b }
{
    a.min(b)
}

// A key or a seed, from a slice of its length.
pub fn bytes_32(b: &[u8]) -> [u8; 32]
    requires { length b.now ≡ 32 }
    ensures { result ≡ b.now }
{
    <[u8; 32]>::try_from(b).unwrap()
}
