// Writes what answers a line.
use crate::command::Command;
use crate::memory;
use crate::memory::Memory;
use crate::request::Request;
use test_script::Output;

// Poly1305's key for a tag that stands for long bytes: the bytes 0 to 31.
const KEY: [u8; 32] = [
    0, 1, 2, 3, 4, 5, 6, 7, 8, 9, 10, 11, 12, 13, 14, 15, 16, 17, 18, 19, 20, 21, 22, 23, 24, 25,
    26, 27, 28, 29, 30, 31,
];

// kept: (d) printed field by field, here and below: a Display would be one more type for each answer.
fn put_tag(bytes: &[u8], out: &mut Output) {
    out.put_hex(&poly1305_mac::mac(&KEY, bytes));
}

// kept: (d) as `put_tag`.
// The tags of a deal's two buffers.
fn put_two_tags(m: &Memory, out: &mut Output) {
    put_tag(m.first.as_slice(), out);
    out.put_byte(b' ');
    put_tag(m.second.as_slice(), out);
}

// kept: (a) a refusal's number, and the word beside it, are what `door_parts::DoorAnswer` holds.
// What answers a line whose call was refused: for a deal by the clock the place too.
pub fn refused(r: Request, why: u32, place: u32, out: &mut Output) {
    match r.command {
        Command::Clock => out.put_numbers(&[why, place]),
        _ => out.put_numbers(&[why]),
    }
}

// kept: (d) as `put_tag`.
// A trial: the name, the code and L that it told.
fn put_told(m: &Memory, out: &mut Output) {
    out.put_hex(&m.name);
    out.put_byte(b' ');
    out.put_number(u64::from(m.terms.code));
    out.put_byte(b' ');
    out.put_number(memory::wide(m.terms.n));
}

// host NAME LAST and the ten fields of join: what the first C function answers.
// kept: (d) one function for both would take a function of twelve parameters.
fn host_join(r: Request, m: &Memory) -> u32 {
    c_lock::lock_join(
        m.field(1),
        r.number(2),
        r.word(3),
        m.field(4),
        r.word(5),
        r.number(6),
        r.word(7),
        r.word(8),
        m.field(9),
        r.word(10),
        r.number(11),
        r.word(12),
    )
}

// The second one.
fn host_last(r: Request, m: &Memory) -> u64 {
    c_lock::lock_last(
        m.field(1),
        r.number(2),
        r.word(3),
        m.field(4),
        r.word(5),
        r.number(6),
        r.word(7),
        r.word(8),
        m.field(9),
        r.word(10),
        r.number(11),
        r.word(12),
    )
}

// kept: (d) as `put_tag`.
fn put_host(r: Request, m: &Memory, out: &mut Output) {
    out.put_numbers(&[host_join(r, m)]);
    out.put_byte(b' ');
    out.put_number(host_last(r, m));
}

// So that a mistake shows as a difference in the output.
pub fn bad_line(place: u64, out: &mut Output) {
    out.put_text(b"bad line ");
    out.put_number(place);
}

// What answers a line that no call refused: `word` is the number that its call answered.
pub fn answer(r: Request, word: u32, m: &Memory, out: &mut Output) {
    match r.command {
        Command::Comment => {}
        Command::Put | Command::Waiting | Command::Width => out.put_text(b"put"),
        Command::Host => put_host(r, m, out),
        Command::Show => put_tag(m.first.as_slice(), out),
        Command::Deal => {
            out.put_text(b"0 ");
            put_two_tags(m, out);
        }
        Command::Clock => {
            out.put_text(b"0 ");
            out.put_number(u64::from(word));
            out.put_byte(b' ');
            put_two_tags(m, out);
        }
        Command::Trial | Command::TrialMixed | Command::TrialBytes => {
            out.put_text(b"0 ");
            put_told(m, out);
        }
        Command::Mask => {
            out.put_text(b"0 ");
            put_tag(m.first.as_slice(), out);
        }
        Command::Take | Command::Finish | Command::Join => out.put_numbers(&[0, word]),
        _ => out.put_numbers(&[0]),
    }
}
