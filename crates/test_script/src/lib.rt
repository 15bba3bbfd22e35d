// Text scripts: lines of fields, read from a buffer, and answers written as hex and decimal
// numbers. For the programs that run test vectors and records of calls.
//
// No public function has a `requires`, but that what answer_lines is given may be called: what can't be
// read is refused, and a position past the end counts as the end. The contracts say where a part of a
// text lies. None says what a field stands for, and none can say what a program writes: the programs'
// outputs are compared instead.
#![tactic(auto)]

mod line;
mod output;
mod parse;

ghost use Rattle.test_script.specs.Script.{NextPart};

pub use line::{Line, Lines};
pub use output::{Output, ROOM};
pub use parse::{
    OneOrTwo, fill, parse_array, parse_bytes, parse_number, parse_one_or_two, parse_vector,
    parse_word,
};

// One more than the longest script.
pub const SIZE: usize = 524289;

// Zeros for a buffer. They come from a function: a proof that knows what a long array holds carries
// all of it.
pub fn zeros<T: Copy + Default, const N: usize>() -> [T; N] {
    [T::default(); N]
}

// Room for a script.
pub fn no_text() -> [u8; SIZE] {
    zeros()
}

// Reads the script, and answers its lines: none if it is too long.
pub fn read_lines(text: &mut [u8; SIZE]) -> Lines<'_> {
    let n = io::read_full(0, text);
    if n < SIZE {
        return Lines::new(&text[..n]);
    }
    io::write_all(1, b"script too long\n");
    Lines::new(&[])
}

// Answers each line of the script by one line: a line that has no answer is answered as bad, so that a
// mistake shows as a difference in the output.
pub fn answer_lines<F: Fn(Line<'_>, &mut Output) -> Option<()>>(answer: F)
    requires { F.IsAlwaysCallable answer }
{
    let mut text = no_text();
    let mut out = Output::new();
    for line in read_lines(&mut text) {
        if answer(line, &mut out).is_none() {
            out.put_text(b"bad line");
        }
        out.put_byte(b'\n');
    }
    out.flush();
}

// The bytes from start to end, and where to look for what follows the mark at end: past the end of
// the text if there is no mark.
#[derive(Clone, Copy)]
pub struct Span {
    pub start: usize,
    pub end: usize,
    pub next: usize,
}

// What stands from a position on up to the next mark, or up to the end of the text.
pub fn next_part(text: &[u8], from: usize, mark: u8) -> Span
    ensures { NextPart text.now from mark result }
{
    let start = from.min(text.len());
    for end in start..text.len() {
        if text[end] == mark {
            return Span {
                start,
                end,
                next: end + 1,
            };
        }
    }
    Span {
        start,
        end: text.len(),
        next: text.len() + 1,
    }
}

pub fn next_line(text: &[u8], from: usize) -> Span
    ensures { NextPart text.now from 10 result }
{
    next_part(text, from, b'\n')
}

// How many parts the marks divide a text into: one more than there are marks.
pub fn part_count(text: &[u8], mark: u8) -> usize {
    text.split(|b| *b == mark).count()
}

// The n-th part between the marks, counted from 0; no bytes if there are fewer parts.
pub fn part(text: &[u8], mark: u8, n: usize) -> &[u8] {
    text.split(|b| *b == mark).nth(n).unwrap_or(&[])
}

// As many words as the bytes make and there is room for, little-endian.
pub fn load_words(bytes: &[u8], words: &mut [u32]) {
    for (word, four) in words.iter_mut().zip(bytes.as_chunks::<4>().0) {
        *word = u32::from_le_bytes(*four);
    }
}

// kept: (a) public names, from here on: the programs slice, and ask for a first byte by a pattern.
// The first bytes of a text, or all if there are fewer. A caller that takes `&text[..n]` has to prove
// that n is in range.
pub fn first(text: &[u8], n: usize) -> &[u8] {
    &text[..n.min(text.len())]
}

pub fn first_mut(text: &mut [u8], n: usize) -> &mut [u8] {
    let end = n.min(text.len());
    &mut text[..end]
}

pub fn first_words(w: &[u32], n: usize) -> &[u32] {
    &w[..n.min(w.len())]
}

pub fn first_words_mut(w: &mut [u32], n: usize) -> &mut [u32] {
    let end = n.min(w.len());
    &mut w[..end]
}

// The first byte, 0 if there is none.
pub fn first_byte(text: &[u8]) -> u8 {
    if text.is_empty() { 0 } else { text[0] }
}
