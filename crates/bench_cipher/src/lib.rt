// The cipher for programs in other languages: bench_cipher_c has it as C functions, which the benchmark
// links. They are no calls of 01 and stand in no door's archive; neither are bench_check's, and neither do
// those.
#![tactic(auto)]

ghost use Rattle.std.specs.Prelude.{◌≡◌, cond, length};
ghost use Rattle.base_words.specs.Bytes.{words_at};
ghost use Rattle.chacha20_stream.specs.Keystream.{stream};
ghost use Rattle.aead_seal.specs.Aead.{sealed, sealed_text, opens, opened_text};

// The key stream's words from block 0 on.
pub fn cipher_stream(key: &[u8; 32], nonce: &[u8; 12], out: &mut [u32])
    ensures { out.new
        ≡ stream (words_at 8 key.now) (words_at 3 nonce.now) (length out.old) }
{
    chacha20_stream::stream(
        chacha20_block::key_words(key),
        chacha20_block::nonce_words(nonce),
        out,
    );
}

// Seals text in place and writes its tag. Where text is too long it answers false, and text and tag
// stay as they were.
pub fn cipher_seal(
    key: &[u8; 32],
    nonce: &[u8; 12],
    aad: &[u8],
    text: &mut [u8],
    tag: &mut [u8; 16],
) -> bool
    ensures value { result ≡ (sealed key.now nonce.now aad.now text.old).ok }
    ensures tag_after { tag.new
        ≡ cond result (sealed key.now nonce.now aad.now text.old).tag
        tag.old }
    ensures text_after { text.new ≡ sealed_text key.now nonce.now text.old }
{
    match aead_seal::seal(key, nonce, aad, text) {
        Some(t) => {
            *tag = t;
            true
        }
        None => false,
    }
}

// Opens text in place if its tag fits, and answers whether it does.
pub fn cipher_open(
    key: &[u8; 32],
    nonce: &[u8; 12],
    aad: &[u8],
    text: &mut [u8],
    tag: &[u8; 16],
) -> bool
    ensures value { result ≡ opens key.now nonce.now
        aad.now text.old tag.now }
    ensures text_after { text.new ≡ opened_text key.now
        nonce.now aad.now text.old tag.now }
{
    aead_seal::open(key, nonce, aad, text, tag)
}
