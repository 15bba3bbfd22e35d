// The ChaCha20 block function of RFC 8439, 2.3, on words. Keys and nonces are words already:
// key_words and nonce_words read them from bytes.
// kept: key, counter and nonce are the RFC's three inputs, and the definitions `start` and `block` take them so.
#![tactic(auto)]

ghost use Rattle.std.specs.Prelude.{◌≡◌, ◌*◌, ◌≤◌, length};
ghost use Rattle.base_words.specs.Bytes.{words_at};
ghost use Rattle.chacha20_rounds.specs.Rounds.{words, rounds};
ghost use Rattle.chacha20_block.specs.ChaCha20.{start as start_of, block as block_of};

use chacha20_rounds::State;

fn twenty_rounds(s: State) -> State
    ensures { words result ≡ rounds 10 (words s) }
{
    let mut t = s;
    for _ in 0..10u32 {
        t = chacha20_rounds::diagonal_round(chacha20_rounds::column_round(t));
    }
    t
}

pub fn start(key: [u32; 8], counter: u32, nonce: [u32; 3]) -> State
    ensures { words result ≡ start_of key counter nonce }
{
    State {
        x0: 0x61707865,
        x1: 0x3320646e,
        x2: 0x79622d32,
        x3: 0x6b206574,
        x4: key[0],
        x5: key[1],
        x6: key[2],
        x7: key[3],
        x8: key[4],
        x9: key[5],
        x10: key[6],
        x11: key[7],
        x12: counter,
        x13: nonce[0],
        x14: nonce[1],
        x15: nonce[2],
    }
}

pub fn block(key: [u32; 8], counter: u32, nonce: [u32; 3]) -> State
    ensures { words result ≡ block_of key counter nonce }
{
    let s = start(key, counter, nonce);
    let t = twenty_rounds(s);
    chacha20_rounds::add_states(t, s)
}

// The first N words of b.
fn words_of<const N: usize>(b: &[u8]) -> [u32; N]
    requires { 4 * N ≤ length b.now }
    ensures { result ≡ words_at N b.now }
{
    let mut w = [0u32; N];
    for i in 0..N {
        w[i] = base_slices::load(b, 4 * i);
    }
    w
}

pub fn key_words(key: &[u8; 32]) -> [u32; 8]
    ensures { result ≡ words_at 8 key.now }
{
    words_of(key)
}

pub fn nonce_words(nonce: &[u8; 12]) -> [u32; 3]
    ensures { result ≡ words_at 3 nonce.now }
{
    words_of(nonce)
}
