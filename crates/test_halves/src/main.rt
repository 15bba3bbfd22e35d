// Answers a script of halves, a line for each line: what is dealt and sealed, and why a half is
// turned down that is handed to a box whole, changed or mixed. A second implementation made the
// script, and the output is compared with that implementation's.
#![tactic(auto)]

mod changed;
mod dealt;
mod fields;

use dealt::HALF;
use fields::Command;
use measure_table::MOST_ELEMENTS;
use test_script::{Line, Output};

// Poly1305's key for a tag that stands for a half: the bytes 0 to 31.
const KEY: [u8; 32] = [
    0, 1, 2, 3, 4, 5, 6, 7, 8, 9, 10, 11, 12, 13, 14, 15, 16, 17, 18, 19, 20, 21, 22, 23, 24, 25,
    26, 27, 28, 29, 30, 31,
];

// kept: (d) printed field by field, as `put_each` and `put_answer`: a Display would be one more type for each answer.
fn put_tag(half: &[u8], out: &mut Output) {
    out.put_hex(&poly1305_mac::mac(&KEY, half));
}

// kept: (d) as `put_tag`.
// A refusal for each place, or for each length, with a space between two.
fn put_each<F: Fn(usize) -> u32>(from: usize, to: usize, refusal: F, out: &mut Output)
    requires { F.IsAlwaysCallable refusal }
{
    for i in from..to {
        if from < i {
            out.put_byte(b' ');
        }
        out.put_numbers(&[refusal(i)]);
    }
}

// kept: (d) as `put_tag`; and a match on an enum, which is the plain form.
fn put_answer(line: Line<'_>, out: &mut Output) {
    let d = dealt::made(line, 1);
    let from = fields::number(line, 10);
    let to = fields::number(line, 11);
    let command = Command::of(line);
    match command {
        Some(Command::Half) => out.put_hex(d.as_slice()),
        Some(Command::Tag) => put_tag(d.as_slice(), out),
        Some(Command::Again) => match d.resealed() {
            Ok(again) => put_tag(again.as_slice(), out),
            Err(refusal) => out.put_numbers(&[refusal.number()]),
        },
        Some(Command::Flip) => put_each(from, to.min(HALF), |i| changed::flip(&d, i), out),
        Some(Command::Content) => {
            let byte = fields::byte(line, 12);
            put_each(from, to.min(HALF), |i| changed::set(&d, i, byte), out)
        }
        Some(Command::Before) => {
            let h = fields::read_half(line, 1);
            put_each(
                from,
                to.min(MOST_ELEMENTS + 1),
                |n| changed::before(h, n),
                out,
            )
        }
        _ => out.put_numbers(&[changed::refusal(d, command, line)]),
    }
}

fn main() {
    test_script::answer_lines(|line, out| {
        put_answer(line, out);
        Some(())
    });
}
