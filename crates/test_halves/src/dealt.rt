// Makes halves, and hands them to a box.
ghost use Rattle.std.specs.Prelude.{◌≡◌, true, ◌≤◌};
ghost use Rattle.measure_table.specs.Measure.{is_code, length_fits, in_order};
ghost use Rattle.half_content.specs.Content.{most_blocks, Proper};

use crate::fields;
use crate::fields::{Half, Holder};
use base_messages::Refusal;
use half_content::{BLOCK, MOST_BLOCKS, ROOM, Set};
use measure_table::{Rule, Terms};
use test_script::Line;

// Room for one block more than a half may have.
pub const HALF: usize = (MOST_BLOCKS + 1) * BLOCK;

// A set's half for a party: its plain content with fill and the same sealed, each from the start of
// an array. No blocks: it could not be made.
#[derive(Clone, Copy)]
pub struct Dealt {
    pub holder: Holder,
    pub number: u64,
    pub blocks: usize,
    pub plain: [u8; ROOM],
    pub half: [u8; HALF],
    ghost few: { blocks ≤ most_blocks },
}

impl Dealt {
    // The half's bytes.
    pub fn as_slice(&self) -> &[u8] {
        &self.half[..BLOCK * self.blocks]
    }

    // The half once its set is opened, laid out and sealed again, or why it is turned down.
    pub fn resealed(self) -> Result<Dealt, Refusal> {
        let b = self.holder;
        let set = half_open::examine(&b.key, b.name, b.party, b.last, self.as_slice())?;
        let plain = half_layout::lay_out(b.name, b.party % 2, set);
        let mut again = self;
        again.half = sealed(&b.key, set.number, self.blocks, plain);
        Ok(again)
    }
}

// kept: (d) no blocks, and not None: half, tag, again, flip and content answer for its no bytes.
fn not_dealt(b: Holder) -> Dealt {
    Dealt {
        holder: b,
        number: 0,
        blocks: 0,
        plain: test_script::zeros(),
        half: test_script::zeros(),
    }
}

fn deal_to(b: Holder, set: Set) -> Dealt
    requires party_bound { b.party ≤ 1 }
    requires proper { Proper set }
{
    let mut half: [u8; HALF] = test_script::zeros();
    half_seal::write_half(&b.key, b.name, b.party, set, &mut half);
    let plain = half_layout::lay_out(b.name, b.party, set);
    Dealt {
        holder: b,
        number: set.number,
        blocks: half_content::blocks_of(set.terms.n),
        plain,
        half,
    }
}

fn deal_in_range(b: Holder, seed: [u8; 32], number: u64, terms: Terms, rule: Rule) -> Dealt
    requires { (b.party ≤ 1) × (is_code terms.code ≡ true) × (length_fits terms ≡ true)
        × (in_order rule ≡ true) }
{
    let sets = half_deal::sets(&seed, number, terms, rule);
    if b.party == 0 {
        return deal_to(b, sets.camera);
    }
    deal_to(b, sets.office)
}

// The half of a set of these terms, whatever h has.
pub fn deal(h: Half, terms: Terms) -> Dealt {
    if h.holder.party <= 1
        && measure_table::rule_fits(terms, h.rule)
        && measure_table::is_code(terms.code)
        && measure_table::length_fits(terms)
        && measure_table::in_order(h.rule)
    {
        return deal_in_range(h.holder, h.seed, h.number, terms, h.rule);
    }
    not_dealt(h.holder)
}

// The half of a line, whose PARTY is field `at`.
pub fn made(line: Line<'_>, at: usize) -> Dealt
    requires { at ≤ 10 }
{
    let h = fields::read_half(line, at);
    deal(h, h.terms)
}

// Other plain content, sealed.
pub fn sealed(key: &[u8; 32], number: u64, blocks: usize, plain: [u8; ROOM]) -> [u8; HALF]
    requires { blocks ≤ most_blocks }
{
    let mut half: [u8; HALF] = test_script::zeros();
    half_seal::write_blocks(key, number, blocks, &plain, &mut half);
    half
}

// Why a half is turned down at a box, 0 if it is not.
pub fn refusal(b: Holder, half: &[u8]) -> u32 {
    match half_open::examine(&b.key, b.name, b.party, b.last, half) {
        Ok(_) => 0,
        Err(refusal) => refusal.number(),
    }
}
