// The commands on Poly1305, and on sealing and opening.
use crate::MESSAGE;
use test_script::{Line, Output};

// poly KEY MESSAGE
pub fn poly(line: Line<'_>, out: &mut Output) -> Option<()> {
    let mut buffer: [u8; MESSAGE] = test_script::zeros();
    let tag = poly1305_mac::mac(&line.array(1)?, line.bytes(2, &mut buffer)?);
    out.put_hex(&tag);
    Some(())
}

// polykey KEY NONCE
pub fn poly_key(line: Line<'_>, out: &mut Output) -> Option<()> {
    out.put_hex(&aead_seal::poly_key(&line.array(1)?, &line.array(2)?));
    Some(())
}

// Seals the text of a line that goes on KEY NONCE AAD DATA, and answers the tag.
fn seal_text(line: Line<'_>, text: &mut [u8]) -> Option<[u8; 16]> {
    let mut aad: [u8; MESSAGE] = test_script::zeros();
    aead_seal::seal(
        &line.array(1)?,
        &line.array(2)?,
        line.bytes(3, &mut aad)?,
        text,
    )
}

// seal KEY NONCE AAD DATA, answered by the ciphertext and the tag.
pub fn seal(line: Line<'_>, out: &mut Output) -> Option<()> {
    let mut buffer: [u8; MESSAGE] = test_script::zeros();
    let text = line.bytes(4, &mut buffer)?;
    let tag = seal_text(line, text)?;
    out.put_hex(text);
    out.put_byte(b' ');
    out.put_hex(&tag);
    Some(())
}

// tag KEY NONCE AAD DATA, answered by the tag alone.
pub fn tag(line: Line<'_>, out: &mut Output) -> Option<()> {
    let mut buffer: [u8; MESSAGE] = test_script::zeros();
    out.put_hex(&seal_text(line, line.bytes(4, &mut buffer)?)?);
    Some(())
}

// open KEY NONCE AAD CIPHERTEXT TAG
pub fn open(line: Line<'_>, out: &mut Output) -> Option<()> {
    let mut aad: [u8; MESSAGE] = test_script::zeros();
    let mut buffer: [u8; MESSAGE] = test_script::zeros();
    let text = line.bytes(4, &mut buffer)?;
    let opened = aead_seal::open(
        &line.array(1)?,
        &line.array(2)?,
        line.bytes(3, &mut aad)?,
        text,
        &line.array(5)?,
    );
    if opened {
        out.put_hex(text);
    } else {
        out.put_text(b"refused");
    }
    Some(())
}
