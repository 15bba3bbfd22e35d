// What earlier calls wrote or sent: the halves of the last four deals, masked vectors, words and
// answers; and the loads of these halves.
use crate::command::Command;
use crate::memory::Memory;
use crate::request;
use crate::request::Request;
use half_content::BLOCK;
use test_script::Line;

// The longest L that a deal takes.
// kept: a length, and no kind.
const MOST: usize = 512;

// Both halves of an accepted deal of length `length` are kept in place of the oldest.
fn keep_halves(length: usize, m: &mut Memory) {
    let size = BLOCK * (half_content::blocks_of(length.min(MOST)) % 17);
    m.deals.keep(&m.first, &m.second, size);
}

// What an accepted call wrote or sent is kept for later lines.
pub fn keep(r: Request, word: u32, m: &mut Memory) {
    let place = r.place();
    match r.command {
        Command::Deal | Command::Clock => keep_halves(r.size(4), m),
        // call 2 writes as many words as it is handed
        Command::Mask => {
            let n = m.field(2).len();
            m.sent[place].masked.set(m.first.first(n));
        }
        Command::Take => m.sent[place].word = word,
        Command::Finish => m.sent[place].answer = word,
        _ => {}
    }
}

// load or trial BOX FROM K BYTES AT. Behind the half its first block stands again.
// kept: the command's name, and no copy by hand.
fn load(r: Request, m: &mut Memory) -> Option<()> {
    let half = m.deals.half(r.size(3), r.from);
    let bytes = &mut m.first;
    bytes.set(half.as_slice());
    bytes.put(half.first(BLOCK));
    let n = r.size(4);
    if !half.has_block(0) || bytes.as_slice().len() < n {
        return None;
    }
    bytes.truncate(n);
    bytes.flip(r.size(5));
    Some(())
}

// mixed BOX I K J
fn mixed(r: Request, m: &mut Memory) -> Option<()> {
    let part = r.part?;
    let half = m.deals.half(0, part);
    let other = m.deals.half(r.size(3), part);
    let i = r.size(2) % 16;
    let j = r.size(4) % 16;
    if !half.has_block(i) || !other.has_block(j) {
        return None;
    }
    m.first.set(half.as_slice());
    m.first.set_block(i, other, j);
    Some(())
}

// The bytes of a load or a trial, if they are there.
fn gather(r: Request, m: &mut Memory) -> Option<()> {
    match r.command {
        Command::Load | Command::Trial => load(r, m),
        Command::Mixed | Command::TrialMixed => mixed(r, m),
        // bytes BOX BYTES
        Command::Bytes | Command::TrialBytes => {
            m.first = m.fields[2];
            Some(())
        }
        _ => Some(()),
    }
}

// Reads a line, with the bytes that it is to load.
pub fn read(line: Line<'_>, m: &mut Memory) -> Option<Request> {
    let r = request::read(line, m)?;
    gather(r, m)?;
    Some(r)
}
