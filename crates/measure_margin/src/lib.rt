// How shaky the camera may be (02, §12): in the clear, for X, Y and T under code 0, the answer for X and
// the largest e from 0 to 2047 such that no whole-number vector with each element within e of X changes
// that answer. Elements and T are words; a negative number stands for itself plus 2^32. The public
// function asks nothing of its caller. No part of a door is touched. [SPEC 36.1 to 36.9]
#![tactic(auto)]

ghost use Rattle.std.specs.Prelude.{◌≡◌, ℕ, ◌≤◌, nat_abs, length};
ghost use Rattle.base_algebra.specs.Word.{signed};
ghost use Rattle.base_messages.specs.Refusals.{why_of};
ghost use Rattle.measure_table.specs.Measure.{element};
ghost use Rattle.measure_margin.specs.Margin.{absolute_sum, why_not_margin, Answered};
ghost use Rattle.measure_margin.specs.Claims.{quotient as quotient_of};

use base_messages::Refusal;
use measure_table::Terms;

// The most that is told: two elements in range are at most so far apart.
pub const MOST_MARGIN: u32 = 2047;

// The code of the scalar product in the table of measures.
// kept: the C interface: a code is a number in `Terms`.
const SCALAR: u32 = 0;

// The lowest word that stands for a negative number, 2^31, and the highest, which is -1.
const LOWEST: u32 = 2147483648;

const MINUS_1: u32 = 4294967295;

// Why not, as 01's number, or 0; the answer for X, 1 if T is reached; and the margin. Both are 0 where
// the call is refused.
// kept: the C interface.
#[repr(C)]
#[derive(Clone, Copy)]
pub struct MarginAnswer {
    pub why: u32,
    pub bit: u32,
    pub margin: u32,
}

// The number that a word stands for, without its sign.
fn magnitude(w: u32) -> u32
    ensures { result ≡ nat_abs (signed w) }
{
    w.cast_signed().unsigned_abs()
}

// The sum of the absolute elements of a vector in range: at most 512 times 1024.
fn absolute_sum(y: &[u32]) -> u32
    requires { (length y.now ≤ 512) × ((i : ℕ) → nat_abs (element y.now i) ≤ 1024) }
    ensures { result ≡ absolute_sum y.now }
{
    let mut total: u32 = 0;
    for w in y {
        total += magnitude(*w);
    }
    total
}

// The largest e from 0 to 2047 with e times s at most g.
fn quotient(g: u32, s: u32) -> u32
    ensures { result ≡ quotient_of g s }
{
    if s == 0 {
        return MOST_MARGIN;
    }
    MOST_MARGIN.min(g / s)
}

// Why not: the lengths, then the elements and the threshold. Of vectors of a wrong length the elements
// are not looked at.
fn why_not(x: &[u32], y: &[u32], t: u32) -> Result<(), Refusal>
    ensures { why_of result ≡ why_not_margin x.now y.now t }
{
    let terms = Terms {
        code: SCALAR,
        n: x.len(),
    };
    let long = measure_table::length_fits(terms) & (y.len() == x.len());
    if !long {
        return Err(Refusal::WrongLength);
    }
    let ranges = measure_table::all_in_range(terms, x)
        & (measure_table::all_in_range(terms, y) & measure_table::threshold_fits(terms, t));
    if !ranges {
        return Err(Refusal::OutOfRange);
    }
    Ok(())
}

// The product less T is a word, `over`, whose sign is the answer. How far it may move before it has the
// other sign is that word, or -1 less it.
pub fn margin(x: &[u32], y: &[u32], t: u32) -> MarginAnswer
    ensures { Answered x.now y.now t result }
{
    if let Err(refusal) = why_not(x, y, t) {
        return MarginAnswer {
            why: refusal.number(),
            bit: 0,
            margin: 0,
        };
    }
    let over = base_words::sub(share_vectors::inner(x.len(), x, y), t);
    let s = absolute_sum(y);
    if over < LOWEST {
        MarginAnswer {
            why: 0,
            bit: 1,
            margin: quotient(over, s),
        }
    } else {
        MarginAnswer {
            why: 0,
            bit: 0,
            margin: quotient(base_words::sub(MINUS_1, over), s),
        }
    }
}
