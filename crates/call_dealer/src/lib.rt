// The dealer: deals a numbered set of masks to the two boxes as sealed halves.
#![tactic(auto)]

ghost use Rattle.std.specs.Prelude.{◌≡◌, length};
ghost use Rattle.base_words.specs.List.{over};
ghost use Rattle.base_messages.specs.Messages.{if_taken};
ghost use Rattle.base_messages.specs.Refusals.{why_of};
ghost use Rattle.call_dealer.specs.Dealer.{why_not_dealer, start_dealer, why_not_deal, half_for, deal as deal_of};
ghost use Rattle.call_dealer.specs.Dealer.{deal_out, deal_in};
ghost use Rattle.call_dealer.specs.Clock.{clock_in, deal_by_clock, clock_out};

use base_messages::{KEY, NAME, Refusal};
use call_day::{Lists, Row};
use half_content::BLOCK;
use measure_table::{Rule, Terms};

// What the dealer keeps: the door's padded name, the keys of the two boxes, and its last set number.
#[repr(C)]
#[derive(Clone, Copy)]
pub struct Dealer {
    pub name: [u8; NAME],
    pub key0: [u8; KEY],
    pub key1: [u8; KEY],
    pub last: u64,
}

// Why a call was refused (0 if it was not), and the next state.
// kept: the C interface; door_start_dealer and door_deal give it back.
#[repr(C)]
#[derive(Clone, Copy)]
pub struct DealerAnswer {
    pub why: u32,
    pub dealer: Dealer,
}

// The same of a deal by the clock, and a place: the row that was used, counted from 1; with 14 to 16
// the row or the minute that they name; else 0.
// kept: the C interface; door_deal_by_clock gives it back.
#[repr(C)]
#[derive(Clone, Copy)]
pub struct ClockAnswer {
    pub why: u32,
    pub place: u32,
    pub dealer: Dealer,
}

// What is to be dealt: a set's number, what it is drawn from, and how it answers.
#[derive(Clone, Copy)]
pub struct Order<'a> {
    pub number: u64,
    pub seed: &'a [u8],
    pub terms: Terms,
    pub rule: Rule,
}

// The same by the clock: a table of the day and a minute stand in place of the rule.
#[derive(Clone, Copy)]
pub struct ClockOrder<'a> {
    pub number: u64,
    pub seed: &'a [u8],
    pub terms: Terms,
    pub table: Lists<'a>,
    pub minute: u32,
}

// What a minute that is not of the day is dealt by. No measure takes this threshold: such a minute is
// refused in its turn, behind all that comes before 8.
const NOBODY: Row = Row {
    place: 0,
    threshold: 2147483648,
};

impl Dealer {
    // key0 is the camera box's, key1 the office box's.
    pub fn start(name: &[u8], key0: &[u8], key1: &[u8], floor: u64) -> DealerAnswer
        ensures { result ≡ start_dealer name.now key0.now key1.now floor }
    {
        if let Err(refusal) = why_not_start(name, key0, key1) {
            return DealerAnswer {
                why: refusal.number(),
                dealer: Dealer {
                    name: [0; NAME],
                    key0: [0; KEY],
                    key1: [0; KEY],
                    last: 0,
                },
            };
        }
        DealerAnswer {
            why: 0,
            dealer: Dealer {
                name: base_messages::padded(name),
                key0: base_slices::bytes_32(key0),
                key1: base_slices::bytes_32(key1),
                last: floor,
            },
        }
    }

    // Deals a set that answers by a threshold, or between two marks. Party 0's half is written to out0,
    // party 1's to out1.
    pub fn deal(self, order: Order, out0: &mut [u8], out1: &mut [u8]) -> DealerAnswer
        ensures value { result ≡ deal_of self (deal_in order.entry) (length out0.old) (length out1.old) }
        ensures out0_after { out0.new ≡ deal_out self (deal_in order.entry) out0.old out1.old 0 }
        ensures out1_after { out1.new ≡ deal_out self (deal_in order.entry) out0.old out1.old 1 }
    {
        if let Err(refusal) = self.why_not_deal(order, out0.len(), out1.len()) {
            return DealerAnswer {
                why: refusal.number(),
                dealer: self,
            };
        }
        self.write_halves(order, out0, out1);
        DealerAnswer {
            why: 0,
            dealer: Dealer {
                last: order.number,
                ..self
            },
        }
    }

    // Deals by the threshold of the table's row in which the minute lies.
    pub fn deal_by_clock(self, order: ClockOrder, out0: &mut [u8], out1: &mut [u8]) -> ClockAnswer
        ensures value { result ≡ deal_by_clock self (clock_in order.entry) (length out0.old) (length out1.old) }
        ensures out0_after { out0.new ≡ clock_out self (clock_in order.entry) out0.old out1.old 0 }
        ensures out1_after { out1.new ≡ clock_out self (clock_in order.entry) out0.old out1.old 1 }
    {
        let chosen = match call_day::choose(order.table, order.minute) {
            Ok(chosen) => chosen,
            Err(bad) => {
                return ClockAnswer {
                    why: bad.why.number(),
                    place: bad.place,
                    dealer: self,
                };
            }
        };
        let row = chosen.unwrap_or(NOBODY);
        let plain = Order {
            number: order.number,
            seed: order.seed,
            terms: order.terms,
            rule: Rule::Threshold(row.threshold),
        };
        let a = self.deal(plain, out0, out1);
        ClockAnswer {
            why: a.why,
            place: place_told(a.why, row.place),
            dealer: a.dealer,
        }
    }

    // The length is tested before blocks are counted: any can be handed in.
    fn why_not_deal(self, order: Order, room0: usize, room1: usize) -> Result<(), Refusal>
        ensures { why_of result ≡ why_not_deal self (deal_in order.entry) room0 room1 }
    {
        let terms = order.terms;
        if !measure_table::is_code(terms.code) {
            return Err(Refusal::BadPartyOrCode);
        }
        let long = order.seed.len();
        if !((long == KEY) & measure_table::length_fits(terms)) {
            return Err(Refusal::WrongLength);
        }
        let size = BLOCK * half_content::blocks_of(terms.n);
        if !((size <= room0) & (size <= room1)) {
            return Err(Refusal::ShortBuffer);
        }
        let last = self.last;
        let number = order.number;
        if !(last < number) {
            return Err(Refusal::WrongNumber);
        }
        if !measure_table::rule_fits(terms, order.rule) {
            return Err(Refusal::OutOfRange);
        }
        if !measure_table::in_order(order.rule) {
            return Err(Refusal::BadMarks);
        }
        Ok(())
    }

    // Both halves of an accepted deal, from the starts of the two buffers.
    fn write_halves(self, order: Order, out0: &mut [u8], out1: &mut [u8])
        requires { why_not_deal self (deal_in order) (length out0.old) (length out1.old) ≡ 0 }
        ensures out0_after { out0.new ≡ over 0 (half_for self (deal_in order.entry) 0) out0.old }
        ensures out1_after { out1.new ≡ over 0 (half_for self (deal_in order.entry) 1) out1.old }
    {
        let seed = base_slices::bytes_32(order.seed);
        let dealt = half_deal::sets(&seed, order.number, order.terms, order.rule);
        half_seal::write_half(&self.key0, self.name, 0, dealt.camera, out0);
        half_seal::write_half(&self.key1, self.name, 1, dealt.office, out1);
    }
}

// The row's place with an accepted deal, else 0.
fn place_told(why: u32, place: u32) -> u32
    ensures { result ≡ if_taken why place 0 }
{
    if why != 0 {
        return 0;
    }
    place
}

fn why_not_start(name: &[u8], key0: &[u8], key1: &[u8]) -> Result<(), Refusal>
    ensures { why_of result ≡ why_not_dealer name.now key0.now key1.now }
{
    if !base_messages::name_fits(name) {
        return Err(Refusal::BadName);
    }
    if !((key0.len() == KEY) & (key1.len() == KEY)) {
        return Err(Refusal::WrongLength);
    }
    if base_slices::equal(key0, key1) {
        return Err(Refusal::EqualKeys);
    }
    Ok(())
}
