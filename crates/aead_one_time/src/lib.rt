// The one-time keys of Poly1305, RFC 8439, 2.6, for up to 16 nonces that differ in their last word: one
// pass over eight blocks makes eight of them, for the blocks of a half.
#![tactic(auto)]

ghost use Rattle.std.specs.Prelude.{◌≡◌, [], length, get_or, take, drop, ◌+◌, ◌*◌, ◌<◌, ◌≤◌};
ghost use Rattle.base_words.specs.List.{over};
ghost use Rattle.base_words.specs.Bytes.{bytes_of};
ghost use Rattle.chacha20_lanes.specs.Lanes.{rows};
ghost use Rattle.aead_one_time.specs.OneTime.{starts, firsts, keys, KeysTo};

// The starting states of eight blocks 0.
fn eight_starts(x: &mut [u32; 128], key: [u32; 8], a: u32, b: u32, first: u32)
    ensures { rows 8 x.new ≡ starts 8 key a b first }
{
    for l in 0..8 {
        let n = base_words::add(first, l as u32);
        chacha20_lanes::set_lane(x, l, chacha20_block::start(key, 0, [a, b, n]));
    }
}

// The first 32 bytes of block l.
// kept: (d) `out` and a place, not a part of `out`: the keys add up as `over` at places.
fn store_key(out: &mut [u8], at: usize, x: &[u32; 128], l: usize)
    requires { (at + 32 ≤ length out.old) × (l < 8) }
    ensures { out.new
        ≡ over at (bytes_of (take 8 (get_or (rows 8 x.now) l []))) out.old }
{
    for w in 0..8 {
        base_slices::store(out, at + 4 * w, x[8 * w + l]);
    }
}

fn store_keys(out: &mut [u8; 256], x: &[u32; 128])
    ensures { out.new ≡ firsts 8 x.now }
{
    for l in 0..8 {
        store_key(out, 32 * l, x, l);
    }
}

// The keys for the nonces a, b and first, a, b and first + 1, and so on, one after the other.
// kept: (d) a and b apart: `nonce_of` and the other definitions have them so.
fn eight_keys(key: &[u8; 32], a: u32, b: u32, first: u32) -> [u8; 256]
    ensures { result ≡ keys 8 key.now a b first }
{
    let mut x = [0u32; 128];
    let mut out = [0u8; 256];
    eight_starts(&mut x, chacha20_block::key_words(key), a, b, first);
    chacha20_wide::blocks(&mut x);
    store_keys(&mut out, &x);
    out
}

// The keys for the nonces a, b and 0, a, b and 1, and so on, one after the other: `count` of them, and
// perhaps some more.
// kept: (a) no heap: `count` says how many there are, beside room for the most.
pub fn keys_to(key: &[u8; 32], a: u32, b: u32, count: usize) -> [u8; 512]
    requires { count ≤ 16 }
    ensures { KeysTo key.now a b count result }
{
    let mut out = [0u8; 512];
    let first = eight_keys(key, a, b, 0);
    base_slices::copy(&mut out, 0, &first);
    if 8 < count {
        let second = eight_keys(key, a, b, 8);
        base_slices::copy(&mut out, 256, &second);
    }
    out
}

// Key i of such keys.
// kept: (a) bytes, not an array of keys: `KeysTo` is over bytes, and so is half_seal's `KeysFor`; and a slice, since
// an array of 512 would ask more of callers.
pub fn key_at(keys: &[u8], i: usize) -> [u8; 32]
    requires { (i < 16) × (32 * i + 32 ≤ length keys.now) }
    ensures { result ≡ take 32 (drop (32 * i) keys.now) }
{
    base_slices::bytes_32(&keys[32 * i..32 * i + 32])
}
