// The key stream of RFC 8439, 2.4, eight blocks at a time, and a rest of up to four blocks by four:
// its words, and the xor of bytes with it.
#![tactic(auto)]

ghost use Rattle.std.specs.Prelude.{◌≡◌, [], length, get_or, ◌+◌, ◌-◌, ◌/◌, ◌<◌, ◌≤◌, min};
ghost use Rattle.std.specs.Int.Bits.{bit_xor};
ghost use Rattle.base_words.specs.List.{over, tab};
ghost use Rattle.base_words.specs.Bytes.{bytes_of};
ghost use Rattle.chacha20_lanes.specs.Lanes.{rows, in_order};
ghost use Rattle.chacha20_stream.specs.Keystream.{key_word, starts, blocks_from, stream as stream_of, xored};

// kept: key, counter, nonce: `stream` and `xor` take them so, and a struct would be made anew as the counter goes on.
// The starting states of blocks in a row.
fn starts<const W: usize>(x: &mut [u32; W], key: [u32; 8], counter: u32, nonce: [u32; 3])
    ensures { rows (W / 16) x.new ≡ starts (W / 16) key counter nonce }
{
    let mut n = counter;
    for l in 0..W / 16 {
        chacha20_lanes::set_lane(x, l, chacha20_block::start(key, n, nonce));
        n = base_words::add(n, 1);
    }
}

fn next_blocks<const W: usize>(x: &mut [u32; W], key: [u32; 8], counter: u32, nonce: [u32; 3])
    ensures { rows (W / 16) x.new ≡ blocks_from (W / 16) key counter nonce }
{
    starts(x, key, counter, nonce);
    chacha20_wide::blocks(x);
}

// kept: `put_lane` beside `store_lane`: one over both would take a closure that writes a word, to share three lines.
fn put_lane(out: &mut [u32], at: usize, x: &[u32; 128], l: usize)
    requires { (at + 16 ≤ length out.old) × (l < 8) }
    ensures { out.new ≡ over at (get_or (rows 8 x.now) l []) out.old }
{
    for w in 0..16 {
        out[at + w] = x[8 * w + l];
    }
}

fn put_lanes(out: &mut [u32], at: usize, x: &[u32; 128])
    requires { at + 128 ≤ length out.old }
    ensures { out.new ≡ over at (in_order 8 x.now) out.old }
{
    for l in 0..8 {
        put_lane(out, at + 16 * l, x, l);
    }
}

// The words of four states, state after state.
fn in_order(x: &[u32; 64]) -> [u32; 64]
    ensures { result ≡ in_order 4 x.now }
{
    let mut k = [0u32; 64];
    for i in 0..64 {
        k[i] = x[4 * (i % 16) + i / 16];
    }
    k
}

// Four blocks of the stream. Where a vector has four words, as with SSE2, eight take twice as long.
fn four_blocks(key: [u32; 8], counter: u32, nonce: [u32; 3]) -> [u32; 64]
    ensures { result ≡ tab (key_word key counter nonce) 64 }
{
    let mut x = [0u32; 64];
    next_blocks(&mut x, key, counter, nonce);
    in_order(&x)
}

// As much of k as there is room for.
fn put_part(out: &mut [u32], at: usize, k: &[u32])
    requires { (at ≤ length out.old) × (length out.old ≤ at + length k.now) }
    ensures { out.new
        ≡ over at (tab (λ i. get_or k.now i 0) (length out.old - at)) out.old }
{
    for i in 0..out.len() - at {
        out[at + i] = k[i];
    }
}

// The key stream from block 0 on, as words.
pub fn stream(key: [u32; 8], nonce: [u32; 3], out: &mut [u32])
    ensures { out.new ≡ stream_of key nonce (length out.old) }
{
    let mut x = [0u32; 128];
    let mut n: u32 = 0;
    let turns = out.len() / 128;
    for turn in 0..turns {
        next_blocks(&mut x, key, n, nonce);
        put_lanes(out, 128 * turn, &x);
        n = base_words::add(n, 8);
    }
    let at = 128 * turns;
    if at == out.len() {
        return;
    }
    if out.len() - at <= 64 {
        let k = four_blocks(key, n, nonce);
        put_part(out, at, &k);
        return;
    }
    let mut k = [0u32; 128];
    next_blocks(&mut x, key, n, nonce);
    put_lanes(&mut k, 0, &x);
    put_part(out, at, &k);
}

fn store_lane(b: &mut [u8], at: usize, x: &[u32; 128], l: usize)
    requires { (at + 64 ≤ length b.old) × (l < 8) }
    ensures { b.new ≡ over at (bytes_of (get_or (rows 8 x.now) l [])) b.old }
{
    for w in 0..16 {
        base_slices::store(b, at + 4 * w, x[8 * w + l]);
    }
}

fn store_lanes(b: &mut [u8], x: &[u32; 128])
    requires { length b.old ≡ 512 }
    ensures { b.new ≡ bytes_of (in_order 8 x.now) }
{
    for l in 0..8 {
        store_lane(b, 64 * l, x, l);
    }
}

// As many bytes as b has, or those that are left, are xored with b.
fn xor_part(bytes: &mut [u8], at: usize, b: &[u8])
    requires { at ≤ length bytes.old }
    ensures { bytes.new
        ≡ over at (tab (λ i. bit_xor (get_or bytes.old (at + i) 0) (get_or b.now i 0))
        (min (length b.now) (length bytes.old - at))) bytes.old }
{
    let n = b.len().min(bytes.len() - at);
    for i in 0..n {
        bytes[at + i] ^= b[i];
    }
}

// Bytes, however many, xored with the key stream from a block on: 2.4's encryption, and its
// decryption. The block counter goes on modulo 2^32.
pub fn xor(key: [u32; 8], counter: u32, nonce: [u32; 3], bytes: &mut [u8])
    ensures { bytes.new ≡ xored key counter nonce bytes.old }
{
    let mut x = [0u32; 128];
    let mut b = [0u8; 512];
    let mut n = counter;
    let mut at: usize = 0;
    // kept: a `for` would go over 0..(bytes.len() + 255) / 512, and the test says plainer what is left for four blocks.
    while at + 256 < bytes.len() {
        next_blocks(&mut x, key, n, nonce);
        store_lanes(&mut b, &x);
        xor_part(bytes, at, &b);
        n = base_words::add(n, 8);
        at += 512;
    }
    if at < bytes.len() {
        let k = four_blocks(key, n, nonce);
        let mut rest = [0u8; 256];
        base_slices::store_all(&mut rest, 0, &k);
        xor_part(bytes, at, &rest);
    }
}
