// Answers a script of test vectors, a line for each line: RFC 8439's own, and those that a second
// implementation made. The output is compared with that implementation's.
#![tactic(auto)]

mod cipher;
mod sealing;

use test_script::{Line, Output};

// The longest message in bytes.
pub const MESSAGE: usize = 4096;

fn answer(line: Line<'_>, out: &mut Output) -> Option<()> {
    match (line.field(0), line.count()) {
        (b"quarter", 5) => cipher::quarter(line, out),
        (b"block", 4) => cipher::block(line, out),
        (b"stream", 4) => cipher::stream(line, out),
        (b"xor", 5) => cipher::xor(line, out),
        (b"poly", 3) => sealing::poly(line, out),
        (b"polykey", 3) => sealing::poly_key(line, out),
        (b"seal", 5) => sealing::seal(line, out),
        (b"tag", 5) => sealing::tag(line, out),
        (b"open", 6) => sealing::open(line, out),
        _ => None,
    }
}

fn main() {
    test_script::answer_lines(answer);
}
