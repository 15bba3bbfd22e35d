// What the fields of a line say. One that can't be read stands for some number or bytes all the same,
// so that a mistake shows as a difference in the output.
ghost use Rattle.std.specs.Prelude.{◌≤◌};

use measure_table::{Rule, Terms};
use test_script::{Line, OneOrTwo};

// half HALF
// tag HALF
// again HALF LAST
// examine HALF LAST PARTY KEY NAME
// flip HALF LAST FROM TO
// cut HALF LAST BYTES
// mixed HALF LAST HALF I J
// content HALF LAST FROM TO BYTE
// spread HALF LAST FROM TO BYTE
// before HALF LAST FROM TO
// where HALF is PARTY CODE L RULE NUMBER SEED KEY NAME, and RULE is T or P:Q.
#[derive(Clone, Copy, PartialEq, Eq)]
pub enum Command {
    Half,
    Tag,
    Again,
    Examine,
    Flip,
    Cut,
    Mixed,
    Content,
    Spread,
    Before,
}

impl Command {
    // The first letter tells, but for two of which one has more fields.
    pub fn of(line: Line<'_>) -> Option<Command> {
        match *line.text.first()? {
            b'h' => Some(Command::Half),
            b't' => Some(Command::Tag),
            b'a' => Some(Command::Again),
            b'e' => Some(Command::Examine),
            b'f' => Some(Command::Flip),
            b'm' => Some(Command::Mixed),
            b's' => Some(Command::Spread),
            b'b' => Some(Command::Before),
            b'c' if line.count() == 11 => Some(Command::Cut),
            b'c' => Some(Command::Content),
            _ => None,
        }
    }
}

pub fn word(line: Line<'_>, place: usize) -> u32 {
    line.word(place).unwrap_or(u32::MAX)
}

pub fn number(line: Line<'_>, place: usize) -> usize {
    word(line, place) as usize
}

// kept: (a) what may not change: of a word that is too large the lowest byte counts.
pub fn byte(line: Line<'_>, place: usize) -> u8 {
    let [low, _, _, _] = word(line, place).to_le_bytes();
    low
}

fn set_number(line: Line<'_>, place: usize) -> u64 {
    line.number(place).unwrap_or(u64::MAX)
}

// kept: (a) what may not change: of bytes that can't be read, `fill` leaves those that it read.
fn bytes<const N: usize>(line: Line<'_>, place: usize) -> [u8; N] {
    let mut b = [0u8; N];
    test_script::fill(line.field(place), &mut b);
    b
}

// A box.
#[derive(Clone, Copy)]
pub struct Holder {
    pub party: u32,
    pub key: [u8; 32],
    pub name: [u8; 16],
    pub last: u64,
}

// The box whose party, key, name and last number stand at these places of a line.
pub fn read_holder(line: Line<'_>, party: usize, key: usize, name: usize, last: usize) -> Holder {
    Holder {
        party: word(line, party),
        key: bytes(line, key),
        name: bytes(line, name),
        last: set_number(line, last),
    }
}

// What a half is made from, and the box that it is for.
#[derive(Clone, Copy)]
pub struct Half {
    pub terms: Terms,
    pub rule: Rule,
    pub number: u64,
    pub seed: [u8; 32],
    pub holder: Holder,
}

fn rule(line: Line<'_>, place: usize) -> Rule {
    match line.one_or_two(place) {
        Some(OneOrTwo::Two(first, second)) => Rule::Between(first, second),
        Some(OneOrTwo::One(threshold)) => Rule::Threshold(threshold),
        None => Rule::Threshold(u32::MAX),
    }
}

// PARTY CODE L RULE NUMBER SEED KEY NAME LAST, of which PARTY is field `at`.
pub fn read_half(line: Line<'_>, at: usize) -> Half
    requires { at ≤ 10 }
{
    Half {
        terms: Terms {
            code: word(line, at + 1),
            n: number(line, at + 2),
        },
        rule: rule(line, at + 3),
        number: set_number(line, at + 4),
        seed: bytes(line, at + 5),
        holder: read_holder(line, at, at + 6, at + 7, at + 8),
    }
}
