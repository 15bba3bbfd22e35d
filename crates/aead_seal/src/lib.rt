// ChaCha20-Poly1305, the AEAD of RFC 8439, 2.8: sealing and opening in place, for any additional
// data and any length.
#![tactic(auto)]

ghost use Rattle.std.specs.Prelude.{◌≡◌, ◌++◌, ◌≤◌, length};
ghost use Rattle.base_words.specs.Numbers.{bytes};
ghost use Rattle.base_algebra.specs.Mod.{Mod};
ghost use Rattle.poly1305_limbs.specs.Limbs.{prime, value};
ghost use Rattle.poly1305_mac.specs.Poly1305.{pieces, pad16, absorb_all, mac};
ghost use Rattle.aead_seal.specs.Aead.{poly_key, mac_data, sealed, handed, sealed_text, opens, opened_text};

use poly1305_limbs::Reduced;

// RFC 8439's P_MAX: what the block counter of 32 bits has room for, after block 0.
const LIMIT: usize = 274877906880;

// The block that encryption starts at, 2.8: block 0 is the one-time key's.
const FIRST: u32 = 1;

// The one-time key of Poly1305 for a nonce, 2.6.
pub fn poly_key(key: &[u8; 32], nonce: &[u8; 12]) -> [u8; 32]
    ensures { result ≡ poly_key key.now nonce.now }
{
    let s = chacha20_block::block(
        chacha20_block::key_words(key),
        0,
        chacha20_block::nonce_words(nonce),
    );
    let w = [s.x0, s.x1, s.x2, s.x3, s.x4, s.x5, s.x6, s.x7];
    let mut out = [0u8; 32];
    base_slices::store_all(&mut out, 0, &w);
    out
}

// Two lengths, in eight bytes each.
fn lengths(a: usize, b: usize) -> [u8; 16]
    ensures { result ≡ bytes 8 a ++ bytes 8 b }
{
    let mut out = [0u8; 16];
    base_slices::copy(&mut out, 0, &a.to_le_bytes());
    base_slices::copy(&mut out, 8, &b.to_le_bytes());
    out
}

// The accumulator after a text, padded, and then `both`. They are put in one place, so that four blocks
// at a time are taken of both together.
// kept: (a) no heap: a fixed room, and `end` beside it.
fn absorb_short(h: Reduced, r: Reduced, text: &[u8], both: &[u8; 16]) -> Reduced
    requires { length text.now ≤ 496 }
    ensures { Mod prime (value result.limbs) (absorb_all (value r.limbs) (value h.limbs)
        (pieces ((text.now ++ pad16 text.now) ++ both.now))) }
{
    let n = text.len();
    let end = n + (16 - n % 16) % 16;
    let mut m = [0u8; 512];
    base_slices::copy(&mut m, 0, text);
    base_slices::copy(&mut m, end, both);
    poly1305_x4::absorb_padded(h, r, &m[..end + 16])
}

// The same for a text of any length.
fn absorb_text(h: Reduced, r: Reduced, text: &[u8], both: &[u8; 16]) -> Reduced
    ensures { Mod prime (value result.limbs) (absorb_all (value r.limbs) (value h.limbs)
        (pieces ((text.now ++ pad16 text.now) ++ both.now))) }
{
    if text.len() <= 496 {
        return absorb_short(h, r, text, both);
    }
    let b = poly1305_x4::absorb_padded(h, r, text);
    poly1305_mac::absorb_padded(b, r, both)
}

// The tag of additional data and a ciphertext, under a one-time key.
fn tag_by(once: &[u8; 32], aad: &[u8], text: &[u8]) -> [u8; 16]
    ensures { result ≡ mac once.now (mac_data aad.now text.now) }
{
    let halves = poly1305_mac::key(once);
    let a = poly1305_mac::absorb_padded(Reduced::ZERO, halves.r, aad);
    let both = lengths(aad.len(), text.len());
    let c = absorb_text(a, halves.r, text, &both);
    poly1305_mac::tag(c, halves.s)
}

// `seal` where the one-time key is at hand.
// kept: (a) key, nonce and aad are parameters of their own, as RFC 8439, 2.8 has them and callers give them.
pub fn seal_by(
    key: &[u8; 32],
    once: &[u8; 32],
    nonce: &[u8; 12],
    aad: &[u8],
    text: &mut [u8],
) -> Option<[u8; 16]>
    requires { once.now ≡ poly_key key.now nonce.now }
    ensures value { result ≡ handed (sealed key.now nonce.now aad.now text.old) }
    ensures text_after { text.new ≡ sealed_text key.now nonce.now text.old }
{
    if LIMIT < text.len() {
        return None;
    }
    chacha20_stream::xor(
        chacha20_block::key_words(key),
        FIRST,
        chacha20_block::nonce_words(nonce),
        text,
    );
    let tag = tag_by(once, aad, text);
    Some(tag)
}

// `open` where the one-time key is at hand.
// kept: (a) the call of xor stands here and in `seal_by`: the wrong program from_block_0 is one of `seal_by`.
pub fn open_by(
    key: &[u8; 32],
    once: &[u8; 32],
    nonce: &[u8; 12],
    aad: &[u8],
    text: &mut [u8],
    tag: &[u8; 16],
) -> bool
    requires { once.now ≡ poly_key key.now nonce.now }
    ensures value { result ≡ opens key.now nonce.now
        aad.now text.old tag.now }
    ensures text_after { text.new ≡ opened_text key.now
        nonce.now aad.now text.old tag.now }
{
    if LIMIT < text.len() {
        return false;
    }
    let expected = tag_by(once, aad, text);
    if base_slices::equal(&expected, tag) {
        chacha20_stream::xor(
            chacha20_block::key_words(key),
            FIRST,
            chacha20_block::nonce_words(nonce),
            text,
        );
        true
    } else {
        false
    }
}

// The text becomes its ciphertext, and the answer is its tag. A text that is too long stays as it is and
// has none.
pub fn seal(key: &[u8; 32], nonce: &[u8; 12], aad: &[u8], text: &mut [u8]) -> Option<[u8; 16]>
    ensures value { result ≡ handed (sealed key.now nonce.now aad.now text.old) }
    ensures text_after { text.new ≡ sealed_text key.now nonce.now text.old }
{
    let once = poly_key(key, nonce);
    seal_by(key, &once, nonce, aad, text)
}

// Whether the tag fits; and only where it does the text becomes the plain one.
pub fn open(key: &[u8; 32], nonce: &[u8; 12], aad: &[u8], text: &mut [u8], tag: &[u8; 16]) -> bool
    ensures value { result ≡ opens key.now nonce.now
        aad.now text.old tag.now }
    ensures text_after { text.new ≡ opened_text key.now
        nonce.now aad.now text.old tag.now }
{
    let once = poly_key(key, nonce);
    open_by(key, &once, nonce, aad, text, tag)
}
