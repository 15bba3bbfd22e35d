// What a field stands for: a decimal number, or bytes. None if it can't be read.

// kept: (d) to_digit and from_str_radix also take capital letters, and those are refused here.
fn digit(b: u8) -> Option<u8> {
    match b {
        b'0'..=b'9' => Some(b - b'0'),
        b'a'..=b'f' => Some(b - b'a' + 10),
        _ => None,
    }
}

fn with_digit(n: u64, b: u8) -> Option<u64> {
    if !b.is_ascii_digit() {
        return None;
    }
    n.checked_mul(10)?.checked_add(u64::from(b - b'0'))
}

// A decimal number below 2^64.
// kept: (b) digit by digit: `from_utf8` and `parse`, which alone would take a sign, look at each byte again, and a
// script of short numbers took half as long again.
pub fn parse_number(field: &[u8]) -> Option<u64> {
    if field.is_empty() {
        return None;
    }
    let mut n = 0;
    for b in field {
        n = with_digit(n, *b)?;
    }
    Some(n)
}

// A decimal number below 2^32.
pub fn parse_word(field: &[u8]) -> Option<u32> {
    u32::try_from(parse_number(field)?).ok()
}

// The words between the colons of a text, if there are just N.
fn parse_words<const N: usize>(text: &[u8]) -> Option<[u32; N]> {
    let mut parts = text.split(|b| *b == b':');
    let mut words = [0; N];
    for w in &mut words {
        *w = parse_word(parts.next()?)?;
    }
    match parts.next() {
        None => Some(words),
        Some(_) => None,
    }
}

// One word, or two with a colon between them.
#[derive(Clone, Copy, PartialEq, Eq)]
pub enum OneOrTwo {
    One(u32),
    Two(u32, u32),
}

pub fn parse_one_or_two(text: &[u8]) -> Option<OneOrTwo> {
    if let Some(words) = parse_words::<2>(text) {
        let [first, second] = words;
        return Some(OneOrTwo::Two(first, second));
    }
    Some(OneOrTwo::One(parse_word(text)?))
}

fn parse_hex<'a>(digits: &[u8], out: &'a mut [u8]) -> Option<&'a mut [u8]> {
    let (pairs, rest) = digits.as_chunks::<2>();
    if pairs.is_empty() || !rest.is_empty() {
        return None;
    }
    let bytes = out.get_mut(..pairs.len())?;
    for (byte, [high, low]) in bytes.iter_mut().zip(pairs) {
        *byte = (digit(*high)? << 4) | digit(*low)?;
    }
    Some(bytes)
}

fn next_state(s: u32) -> u32 {
    s.wrapping_mul(1664525).wrapping_add(1013904223)
}

// The first bytes of a generator, so that a script can ask for long inputs in few characters.
fn generate(seed: u32, out: &mut [u8]) {
    let mut s = seed;
    for byte in out.iter_mut() {
        s = next_state(s);
        *byte = s.to_be_bytes()[0];
    }
}

// The first words of the generator, little-endian: of each state, 16 bits under the mask, added to
// `low`. The low bits of a state repeat too soon.
fn generate_words(seed: u32, low: u32, mask: u32, out: &mut [u8]) {
    let mut s = seed;
    for word in out.as_chunks_mut::<4>().0 {
        s = next_state(s);
        *word = low.wrapping_add((s >> 16) & mask).to_le_bytes();
    }
}

// N:S, with N bytes wanted of the seed S.
fn parse_generated<'a>(text: &[u8], out: &'a mut [u8]) -> Option<&'a mut [u8]> {
    let [count, seed] = parse_words::<2>(text)?;
    let bytes = out.get_mut(..count as usize)?;
    generate(seed, bytes);
    Some(bytes)
}

// N:S:LOW:MASK, with N words wanted of the seed S.
fn parse_generated_words<'a>(text: &[u8], out: &'a mut [u8]) -> Option<&'a mut [u8]> {
    let [count, seed, low, mask] = parse_words::<4>(text)?;
    let bytes = out.get_mut(..4 * count as usize)?;
    generate_words(seed, low, mask, bytes);
    Some(bytes)
}

// The bytes of a field into the first of a buffer, if it has room for them: hex digits in lower case,
// - for none, @N:S for N bytes generated from the seed S, or ~N:S:LOW:MASK for N generated words.
pub fn parse_bytes<'a>(field: &[u8], out: &'a mut [u8]) -> Option<&'a mut [u8]> {
    match field {
        b"-" => out.get_mut(..0),
        [b'@', text @ ..] => parse_generated(text, out),
        [b'~', text @ ..] => parse_generated_words(text, out),
        _ => parse_hex(field, out),
    }
}

// The word at a place between colons. One that can't be read is some word all the same.
// kept: (a) what fill makes of a number that can't be read may not change; parse_number reads the others.
fn some_word(text: &[u8], n: usize) -> u32 {
    let field = text.split(|b| *b == b':').nth(n).unwrap_or(&[]);
    let mut number = 0;
    for b in field {
        number = with_digit(number, *b).unwrap_or(0);
    }
    (number & 0xffffffff) as u32
}

// The bytes of a field into a buffer, for a program that answers a line all the same where a field
// can't be read: a digit that is none counts as 0, and bytes without room are left out.
pub fn fill(field: &[u8], out: &mut [u8]) {
    match field {
        [b'-', ..] => {}
        [b'@', text @ ..] => generate(some_word(text, 1), out),
        [b'~', text @ ..] => generate_words(
            some_word(text, 1),
            some_word(text, 2),
            some_word(text, 3),
            out,
        ),
        _ => {
            for (byte, [high, low]) in out.iter_mut().zip(field.as_chunks::<2>().0) {
                *byte = (digit(*high).unwrap_or(0) << 4) | digit(*low).unwrap_or(0);
            }
        }
    }
}

// The bytes of a field, if there are just N.
pub fn parse_array<const N: usize>(field: &[u8]) -> Option<[u8; N]> {
    let mut bytes = [0; N];
    if parse_bytes(field, &mut bytes)?.len() == N {
        Some(bytes)
    } else {
        None
    }
}

// The longest vector that a field stands for, in words.
const VECTOR: usize = 2048;

// The bytes of a field as words, little-endian, into the first of a buffer, if it has room for them.
pub fn parse_vector<'a>(field: &[u8], out: &'a mut [u32]) -> Option<&'a mut [u32]> {
    let mut buffer: [u8; 4 * VECTOR] = crate::zeros();
    let bytes = parse_bytes(field, &mut buffer)?;
    if bytes.len() % 4 != 0 {
        return None;
    }
    let words = out.get_mut(..bytes.len() / 4)?;
    crate::load_words(bytes, words);
    Some(words)
}
