// Reads a line: which command it is, and what its fields say.
ghost use Rattle.std.specs.Prelude.{◌<◌, ◌+◌};

use crate::command::{Command, Kind, Part};
use crate::memory::{Buffer, FIELDS, Memory};
use measure_table::Rule;
use test_script::{Line, OneOrTwo};

// What a line asks: its command, the part that it asks for something, the box that a half was written
// for, a deal's rule, and the fields that are numbers, each in its place. `Memory` has those that are bytes.
#[derive(Clone, Copy)]
pub struct Request {
    pub command: Command,
    pub part: Option<Part>,
    pub from: Part,
    pub rule: Rule,
    numbers: [u64; FIELDS],
}

impl Request {
    fn new(command: Command) -> Self {
        Request {
            command,
            part: command.part(),
            from: Part::Camera,
            rule: Rule::Threshold(0),
            numbers: [0; FIELDS],
        }
    }

    pub fn number(&self, i: usize) -> u64
        requires { i < 13 }
    {
        self.numbers[i]
    }

    // kept: (d) `i < 13` here and below: an index into the fields, and an enum of places would be one more name each.
    pub fn size(&self, i: usize) -> usize
        requires { i < 13 }
    {
        self.numbers[i] as usize
    }

    // A field that was read as a word.
    pub fn word(&self, i: usize) -> u32
        requires { i < 13 }
    {
        (self.numbers[i] & 0xffffffff) as u32
    }

    // The asked box's place in `sent`.
    pub fn place(&self) -> usize
        ensures { result < 2 }
    {
        match self.part {
            Some(Part::Office) => 1,
            _ => 0,
        }
    }

    // Field i, if it can be read as its kind.
    // kept: a match on an enum, which is the plain form.
    fn read_field(&mut self, kind: Kind, field: &[u8], i: usize, m: &mut Memory) -> Option<()>
        requires { i < 13 }
    {
        match kind {
            Kind::Number(most) => self.numbers[i] = read_number(field, most)?,
            Kind::SentWord => {
                self.numbers[i] = match m.sent_by(field) {
                    Some(sent) => u64::from(sent.word),
                    None => u64::from(test_script::parse_word(field)?),
                }
            }
            Kind::SentAnswer => {
                self.numbers[i] = match m.sent_by(field) {
                    Some(sent) => u64::from(sent.answer),
                    None => u64::from(test_script::parse_word(field)?),
                }
            }
            Kind::From => self.from = read_box(field)?,
            Kind::Box => self.part = Some(read_box(field)?),
            Kind::Part => self.part = Some(Part::of(field)?),
            Kind::Rule => self.rule = read_rule(field)?,
            Kind::Bytes => {
                let out = &mut m.fields[i];
                read_bytes(field, out)?
            }
            Kind::Vector => {
                let out = &mut m.fields[i];
                read_vector(field, out)?
            }
            Kind::SentVector => match m.sent_by(field) {
                Some(sent) => m.fields[i] = sent.masked,
                None => {
                    let out = &mut m.fields[i];
                    read_vector(field, out)?
                }
            },
        }
        Some(())
    }
}

fn read_number(field: &[u8], most: u64) -> Option<u64> {
    let n = test_script::parse_number(field)?;
    if n <= most { Some(n) } else { None }
}

fn read_box(field: &[u8]) -> Option<Part> {
    let part = Part::of(field)?;
    match part {
        Part::Camera | Part::Office => Some(part),
        _ => None,
    }
}

fn read_rule(field: &[u8]) -> Option<Rule> {
    match test_script::parse_one_or_two(field)? {
        OneOrTwo::One(threshold) => Some(Rule::Threshold(threshold)),
        OneOrTwo::Two(first, second) => Some(Rule::Between(first, second)),
    }
}

// Words are generated for vectors alone.
fn read_bytes(field: &[u8], out: &mut Buffer) -> Option<()> {
    if let [b'~', ..] = field {
        return None;
    }
    out.read(field)
}

// A vector has whole words.
fn read_vector(field: &[u8], out: &mut Buffer) -> Option<()> {
    out.read(field)?;
    if out.as_slice().len() % 4 == 0 {
        Some(())
    } else {
        None
    }
}

// Reads a line: None if it is no command, or one of its fields can't be read.
pub fn read(line: Line<'_>, m: &mut Memory) -> Option<Request> {
    if let [] | [b'#', ..] = line.text {
        return Some(Request::new(Command::Comment));
    }
    let command = Command::of(line.field(0))?;
    let kinds = command.kinds();
    if line.count() != kinds.len() + 1 {
        return None;
    }
    let mut request = Request::new(command);
    for i in 0..kinds.len().min(FIELDS - 1) {
        request.read_field(kinds[i], line.field(i + 1), i + 1, m)?;
    }
    Some(request)
}
