// The calls of a door's list, each by the door's own.
ghost use Rattle.std.specs.Prelude.{◌≤◌, length};

use base_messages::Label;
use call_day::Lists;
use call_dealer::{ClockOrder, Order};
use call_lock::Answer;
use door_parts::{Door, DoorAnswer, PlacedAnswer, Side};
use measure_table::Terms;
use test_replay_lines::command::Part;
use test_replay_lines::memory::{LONGEST, Memory};
use test_replay_lines::request::Request;

// The longest buffer of a deal.
const HALF_ROOM: usize = 8704;

// The most words of a vector, and of call 2's buffer.
const MOST_WORDS: usize = LONGEST / 4;

const ROOM: usize = 520;

// A deal's buffer before the deal.
fn no_half() -> [u8; HALF_ROOM] {
    [170; HALF_ROOM]
}

// Call 2's buffer before the call.
fn no_masked() -> [u32; ROOM] {
    [2863311530; ROOM]
}

// The words of a field, little-endian, of which the first `len` count.
// kept: (d) an array with a length, as `Buffer`.
#[derive(Clone, Copy)]
struct Vector {
    words: [u32; MOST_WORDS],
    len: usize,
}

impl Vector {
    fn of(bytes: &[u8]) -> Vector {
        let mut words: [u32; MOST_WORDS] = test_script::zeros();
        let (chunks, _) = bytes.as_chunks::<4>();
        for (w, chunk) in words.iter_mut().zip(chunks) {
            *w = u32::from_le_bytes(*chunk);
        }
        Vector {
            words,
            len: chunks.len().min(MOST_WORDS),
        }
    }

    fn as_slice(&self) -> &[u32] {
        &self.words[..self.len.min(MOST_WORDS)]
    }
}

// The label whose kind is field `at`: behind it come the name, the sender and the number.
fn label(r: Request, at: usize) -> Label
    requires { at ≤ 9 }
{
    Label {
        kind: r.word(at),
        sender: r.word(at + 2),
        number: r.number(at + 3),
    }
}

// The box that a line asks.
fn side(r: Request) -> Side {
    match r.part {
        Some(Part::Camera) => Side::Camera,
        _ => Side::Office,
    }
}

fn terms(r: Request) -> Terms {
    Terms {
        code: r.word(3),
        n: r.size(4),
    }
}

// deal NUMBER SEED CODE L RULE ROOM0 ROOM1
pub fn deal(door: Door, m: &mut Memory, r: Request) -> DoorAnswer {
    let mut half0 = no_half();
    let mut half1 = no_half();
    let out0 = &mut half0[..r.size(6).min(HALF_ROOM)];
    let out1 = &mut half1[..r.size(7).min(HALF_ROOM)];
    let order = Order {
        number: r.number(1),
        seed: m.field(2),
        terms: terms(r),
        rule: r.rule,
    };
    let a = door.deal(order, out0, out1);
    m.first.set(out0);
    m.second.set(out1);
    a
}

// Its parts have one lifetime here, so that the borrow checker covers the table in it.
fn clock_order<'a>(
    r: Request,
    seed: &'a [u8],
    firsts: &'a [u32],
    lasts: &'a [u32],
    thresholds: &'a [u32],
) -> ClockOrder<'a> {
    ClockOrder {
        number: r.number(1),
        seed,
        terms: terms(r),
        table: Lists {
            firsts,
            lasts,
            thresholds,
        },
        minute: r.word(8),
    }
}

fn by_clock(door: Door, m: &Memory, r: Request, out0: &mut [u8], out1: &mut [u8]) -> PlacedAnswer {
    let firsts = Vector::of(m.field(5));
    let lasts = Vector::of(m.field(6));
    let thresholds = Vector::of(m.field(7));
    let order = clock_order(
        r,
        m.field(2),
        firsts.as_slice(),
        lasts.as_slice(),
        thresholds.as_slice(),
    );
    door.deal_by_clock(order, out0, out1)
}

// clock NUMBER SEED CODE L FIRSTS LASTS THRESHOLDS MINUTE ROOM0 ROOM1. It answers the place as its word.
pub fn clock(door: Door, m: &mut Memory, r: Request) -> DoorAnswer {
    let mut half0 = no_half();
    let mut half1 = no_half();
    let out0 = &mut half0[..r.size(9).min(HALF_ROOM)];
    let out1 = &mut half1[..r.size(10).min(HALF_ROOM)];
    let a = by_clock(door, m, r, out0, out1);
    m.first.set(out0);
    m.second.set(out1);
    DoorAnswer {
        why: a.why,
        word: a.place,
        door: a.door,
    }
}

// kept: the call's name, and no copy by hand.
// The bytes of a load stand in `first`.
pub fn load(door: Door, m: &Memory, r: Request) -> DoorAnswer {
    door.load(side(r), m.first.as_slice())
}

// The bytes of a trial stand there too.
pub fn trial(door: Door, m: &mut Memory, r: Request) -> DoorAnswer {
    let a = door.trial(side(r), m.first.as_slice());
    let name = a.name;
    m.name = name;
    m.terms = a.terms;
    DoorAnswer {
        why: a.why,
        word: 0,
        door: a.door,
    }
}

// mask BOX VECTOR ROOM
pub fn mask(door: Door, m: &mut Memory, r: Request) -> DoorAnswer {
    let vector = Vector::of(m.field(2));
    let mut masked = no_masked();
    let out = &mut masked[..r.size(3).min(ROOM)];
    let a = door.mask(side(r), vector.as_slice(), out);
    m.first.set(&[]);
    m.first.put_words(out);
    a
}

// take BOX KIND NAME SENDER NUMBER VECTOR
pub fn take(door: Door, m: &Memory, r: Request) -> DoorAnswer {
    let vector = Vector::of(m.field(6));
    door.take(side(r), label(r, 2), m.field(3), vector.as_slice())
}

// finish BOX KIND NAME SENDER NUMBER WORD
pub fn finish(door: Door, m: &Memory, r: Request) -> DoorAnswer {
    door.finish(side(r), label(r, 2), m.field(3), r.word(6))
}

pub fn drop(door: Door, r: Request) -> DoorAnswer {
    door.drop(side(r))
}

// join KIND0 NAME0 SENDER0 NUMBER0 ANSWER0 KIND1 NAME1 SENDER1 NUMBER1 ANSWER1
pub fn join(door: Door, m: &Memory, r: Request) -> DoorAnswer {
    let camera = Answer {
        label: label(r, 1),
        name: m.field(2),
        answer: r.word(5),
    };
    let office = Answer {
        label: label(r, 6),
        name: m.field(7),
        answer: r.word(10),
    };
    door.join(camera, office)
}
