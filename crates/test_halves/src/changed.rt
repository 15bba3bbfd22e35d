// Halves that are changed or mixed, and the refusals of these.
ghost use Rattle.std.specs.Prelude.{◌+◌, ◌*◌, ◌<◌, ◌≤◌};
ghost use Rattle.half_content.specs.Content.{most_blocks};

use crate::dealt::{Dealt, HALF};
use crate::fields::{Command, Half};
use crate::{dealt, fields};
use half_content::{BLOCK, ROOM, TEXT};
use measure_table::{MOST_ELEMENTS, Terms};
use test_script::Line;

// What is answered to a line that asks for something else: no refusal has this number.
// kept: (a) what is printed stays: a number stands for a refusal there.
const BAD_LINE: u32 = 99;

// The refusal of the half with byte i flipped: 1 is xored into it where its place is even, else 128.
// `d` is lent, since a Dealt by value is a copy of 16 KB.
pub fn flip(d: &Dealt, i: usize) -> u32 {
    let mut half = d.half;
    if i < HALF {
        half[i] ^= if i % 2 == 0 { 1 } else { 128 };
    }
    dealt::refusal(d.holder, &half[..BLOCK * d.blocks])
}

// The refusal of other content.
fn of_content(d: &Dealt, plain: [u8; ROOM]) -> u32 {
    let half = dealt::sealed(&d.holder.key, d.number, d.blocks, plain);
    dealt::refusal(d.holder, &half[..BLOCK * d.blocks])
}

// All bytes from one place to before another set.
fn spread(plain: [u8; ROOM], from: usize, to: usize, byte: u8) -> [u8; ROOM] {
    let mut p = plain;
    for i in from..to.min(ROOM) {
        p[i] = byte;
    }
    p
}

// The refusal of the half with byte i of its content set.
pub fn set(d: &Dealt, i: usize, byte: u8) -> u32 {
    of_content(d, spread(d.plain, i, i.saturating_add(1), byte))
}

// The blocks of a set of length n before it had a width and a mark, which come last.
fn blocks_before(n: usize) -> usize
    requires { n ≤ 512 }
    ensures { result ≤ most_blocks }
{
    half_content::width_at(n).div_ceil(TEXT)
}

// The refusal of a half of length n as it was laid out then: zeros stand for the width and the mark.
pub fn before(h: Half, n: usize) -> u32 {
    let d = dealt::deal(
        h,
        Terms {
            code: h.terms.code,
            n,
        },
    );
    if d.blocks == 0 {
        return BAD_LINE;
    }
    let length = n.min(MOST_ELEMENTS);
    let blocks = blocks_before(length);
    let plain = spread(d.plain, half_content::width_at(length), ROOM, 0);
    let half = dealt::sealed(&d.holder.key, d.number, blocks, plain);
    dealt::refusal(d.holder, &half[..BLOCK * blocks])
}

// A half whose block i is block j of another.
fn with_block(half: [u8; HALF], i: usize, other: &[u8; HALF], j: usize) -> [u8; HALF]
    requires { (i ≤ most_blocks) × (j ≤ most_blocks) }
{
    let mut h = half;
    h[BLOCK * i..BLOCK * i + BLOCK].copy_from_slice(&other[BLOCK * j..BLOCK * j + BLOCK]);
    h
}

// The refusal of the first bytes. Behind the half its first block stands again.
fn cut(d: Dealt, size: usize) -> u32 {
    let h = with_block(d.half, d.blocks, &d.half, 0);
    dealt::refusal(d.holder, &h[..size.min(HALF)])
}

// The half is longer if it has no block i.
fn mixed(d: Dealt, i: usize, other: Dealt, j: usize) -> u32 {
    if d.blocks < i || other.blocks <= j {
        return BAD_LINE;
    }
    let h = with_block(d.half, i, &other.half, j);
    let blocks = d.blocks.max(i + 1);
    dealt::refusal(d.holder, &h[..BLOCK * blocks])
}

// The refusal of a half that was dealt, for the commands that change it in one way.
pub fn refusal(d: Dealt, c: Option<Command>, line: Line<'_>) -> u32 {
    if d.blocks == 0 {
        return BAD_LINE;
    }
    let n = fields::number(line, 10);
    match c {
        Some(Command::Examine) => {
            dealt::refusal(fields::read_holder(line, 10, 11, 12, 9), d.as_slice())
        }
        Some(Command::Cut) => cut(d, n),
        Some(Command::Spread) => {
            let to = fields::number(line, 11);
            of_content(&d, spread(d.plain, n, to, fields::byte(line, 12)))
        }
        Some(Command::Mixed) => mixed(
            d,
            fields::number(line, 18),
            dealt::made(line, 10),
            fields::number(line, 19),
        ),
        _ => BAD_LINE,
    }
}
