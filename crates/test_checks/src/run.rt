// A whole check: what the dealer computes, and both boxes' words and answers; and the own term of a vector
// by itself. A mask and a masked vector of n words stand at the start of an array.
ghost use Rattle.std.specs.Prelude.{◌*◌, ◌<◌, ◌≤◌, ◌≡◌, length};

use crate::{Dealt, deal};
use measure_table::{MOST_ELEMENTS, Rule, Terms};
use test_script::{Line, OneOrTwo, Output};

// The shares of both masks, one after the other: x0, x1, y0, y1.
const MASKS: usize = 2048;

// The numbers of a line.
#[derive(Clone, Copy)]
struct Numbers {
    code: u32,
    rule: Rule,
    c0: u32,
    r: u32,
    r0: u32,
}

// A threshold T, or two marks P:Q.
fn rule_of(w: OneOrTwo) -> Rule {
    match w {
        OneOrTwo::One(t) => Rule::Threshold(t),
        OneOrTwo::Two(p, q) => Rule::Between(p, q),
    }
}

fn read_numbers(line: Line<'_>) -> Option<Numbers> {
    Some(Numbers {
        code: line.word(1)?,
        rule: rule_of(line.one_or_two(2)?),
        c0: line.word(6)?,
        r: line.word(7)?,
        r0: line.word(8)?,
    })
}

// A vector's mask, which is the sum of two shares, and the vector masked.
#[derive(Clone, Copy)]
struct Masked {
    mask: [u32; MOST_ELEMENTS],
    vector: [u32; MOST_ELEMENTS],
}

fn add_mask(v: &[u32], shares: &[u32]) -> Masked
    requires { (length v.now ≤ 512) × (2 * length v.now ≤ length shares.now) }
{
    let n = v.len();
    let mut mask = [0u32; MOST_ELEMENTS];
    let mut vector = [0u32; MOST_ELEMENTS];
    share_vectors::add_vectors(n, shares, &shares[n..], &mut mask);
    share_vectors::add_vectors(n, v, &mask, &mut vector);
    Masked { mask, vector }
}

// Words 0 and 1.
fn words_of(
    d: Numbers,
    terms: Terms,
    own: (u32, u32),
    c1: u32,
    masks: &[u32],
    mx: &[u32; MOST_ELEMENTS],
    my: &[u32; MOST_ELEMENTS],
) -> (u32, u32)
    requires { (terms.n ≤ 512) × (4 * terms.n ≤ length masks.now) }
{
    let n = terms.n;
    let share0 = share_vectors::share_of(0, n, d.c0, mx, my, masks, &masks[2 * n..]);
    let share1 = share_vectors::share_of(1, n, c1, mx, my, &masks[n..], &masks[3 * n..]);
    let mark = measure_table::mark_of(d.rule);
    let r1 = share_vectors::other_r(terms, mark, d.r, measure_table::offset_of(d.rule), d.r0);
    (
        share_answers::word(terms, mark, share0, own.0, d.r0),
        share_answers::word(terms, mark, share1, own.1, r1),
    )
}

// The first and the last word of both masked vectors, and words 0 and 1.
fn two_words(d: Numbers, x: &[u32], y: &[u32], masks: &[u32]) -> [u32; 6]
    requires vectors { (0 < length x.now) × (length x.now ≤ 512) × (length y.now ≡ length x.now) }
    requires masks { length masks.now ≡ 4 * length x.now }
{
    let n = x.len();
    let mx = add_mask(x, masks);
    let my = add_mask(y, &masks[2 * n..]);
    let c1 = share_vectors::other_c(n, &mx.mask, &my.mask, d.c0);
    let terms = Terms { code: d.code, n };
    let own = (share_vectors::own(terms, x), share_vectors::own(terms, y));
    let w = words_of(d, terms, own, c1, masks, &mx.vector, &my.vector);
    [
        mx.vector[0],
        mx.vector[n - 1],
        my.vector[0],
        my.vector[n - 1],
        w.0,
        w.1,
    ]
}

// Z, both answers and their sum.
fn answers(d: &Dealt, width: u32, z: u32) -> [u32; 4] {
    let a0 = share_answers::answer(width, 0, d.key, d.seeds[0], z);
    let a1 = share_answers::answer(width, 1, d.key, d.seeds[1], z);
    [z, a0, a1, a0.wrapping_add(a1)]
}

// run CODE RULE X Y MASKS C0 R R0 SEED0 SEED1
pub fn check(line: Line<'_>, out: &mut Output) -> Option<()> {
    let mut x: [u32; MOST_ELEMENTS] = test_script::zeros();
    let mut y: [u32; MOST_ELEMENTS] = test_script::zeros();
    let mut masks: [u32; MASKS] = test_script::zeros();
    let x = line.vector(3, &mut x)?;
    let y = line.vector(4, &mut y)?;
    let masks = line.vector(5, &mut masks)?;
    let d = read_numbers(line)?;
    let dealt = deal(line, 9, 10, 7)?;
    let n = x.len();
    if n == 0 || MOST_ELEMENTS < n || y.len() != n || masks.len() != 4 * n {
        return None;
    }
    let w = two_words(d, x, y, masks);
    out.put_numbers(&w);
    out.put_byte(b' ');
    let width = measure_table::width_of(d.rule);
    out.put_numbers(&answers(&dealt, width, w[4].wrapping_add(w[5])));
    Some(())
}

// own CODE V. What stands past the vector is not 0, and must not count.
pub fn own(line: Line<'_>, out: &mut Output) -> Option<()> {
    let mut v = [1u32; MOST_ELEMENTS];
    let n = line.vector(2, &mut v)?.len();
    if n == 0 || MOST_ELEMENTS < n {
        return None;
    }
    let terms = Terms {
        code: line.word(1)?,
        n,
    };
    out.put_numbers(&[share_vectors::own(terms, &v)]);
    Some(())
}
