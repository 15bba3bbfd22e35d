// Every call of dealer, box and lock, those on iris codes, and the margin, for the hosts: c_door_c has them
// as C functions. A state is handed over and comes back by value, but for a trial's, which does not come
// back. No function asks anything of its caller.
// kept: the C interface; a deal, a table and a message come in parts, and each is put together here.
#![tactic(auto)]

ghost use Rattle.std.specs.Prelude.{◌≡◌, length};
ghost use Rattle.half_deal.specs.Dealing.{deal_from};
ghost use Rattle.call_day.specs.Table.{table_of};
ghost use Rattle.call_dealer.specs.Dealer.{start_dealer, deal, deal_out};
ghost use Rattle.call_dealer.specs.Clock.{clock_from, deal_by_clock, clock_out};
ghost use Rattle.call_party.specs.Party.{start_party, load, trial, mask, mask_out, take_vector, finish, drop_set};
ghost use Rattle.call_lock.specs.Lock.{start_lock, join};
ghost use Rattle.measure_iris.specs.Iris.{code_bytes, code_bits, to_rings, to_angles, unpacked, packed};
ghost use Rattle.measure_iris.specs.Iris.{why_not_code, why_not_vector, buffer_after, hamming_answer};
ghost use Rattle.measure_margin.specs.Margin.{Answered};

use base_messages::Label;
use call_day::Lists;
use call_dealer::{ClockAnswer, ClockOrder, Dealer, DealerAnswer, Order};
use call_lock::{Answer, Lock, LockAnswer};
use call_party::{Party, PartyAnswer, TrialAnswer};
use measure_iris::HammingAnswer;
use measure_margin::MarginAnswer;
use measure_table::{Rule, Terms};

// key0 is the camera box's, key1 the office box's.
pub fn door_start_dealer(name: &[u8], key0: &[u8], key1: &[u8], floor: u64) -> DealerAnswer
    ensures { result ≡ start_dealer name.now key0.now key1.now floor }
{
    Dealer::start(name, key0, key1, floor)
}

// Party 0's half is written to out0, party 1's to out1.
pub fn door_deal(
    dealer: Dealer,
    number: u64,
    seed: &[u8],
    terms: Terms,
    t: u32,
    out0: &mut [u8],
    out1: &mut [u8],
) -> DealerAnswer
    ensures value { result ≡ deal dealer (deal_from number seed.now terms (Rule.Threshold t))
        (length out0.old) (length out1.old) }
    ensures out0_after { out0.new ≡ deal_out dealer (deal_from number seed.now terms (Rule.Threshold t))
        out0.old out1.old 0 }
    ensures out1_after { out1.new ≡ deal_out dealer (deal_from number seed.now terms (Rule.Threshold t))
        out0.old out1.old 1 }
{
    let by_threshold = Order {
        number,
        seed,
        terms,
        rule: Rule::Threshold(t),
    };
    dealer.deal(by_threshold, out0, out1)
}

// The same for a set that answers yes from p to q.
pub fn door_deal_between(
    dealer: Dealer,
    number: u64,
    seed: &[u8],
    terms: Terms,
    p: u32,
    q: u32,
    out0: &mut [u8],
    out1: &mut [u8],
) -> DealerAnswer
    ensures value { result ≡ deal dealer (deal_from number seed.now terms (Rule.Between p q))
        (length out0.old) (length out1.old) }
    ensures out0_after { out0.new ≡ deal_out dealer (deal_from number seed.now terms (Rule.Between p q))
        out0.old out1.old 0 }
    ensures out1_after { out1.new ≡ deal_out dealer (deal_from number seed.now terms (Rule.Between p q))
        out0.old out1.old 1 }
{
    let between = Order {
        number,
        seed,
        terms,
        rule: Rule::Between(p, q),
    };
    dealer.deal(between, out0, out1)
}

// The same by the clock: the threshold is that of the table's row in which the minute lies.
pub fn door_deal_by_clock(
    dealer: Dealer,
    number: u64,
    seed: &[u8],
    terms: Terms,
    firsts: &[u32],
    lasts: &[u32],
    thresholds: &[u32],
    minute: u32,
    out0: &mut [u8],
    out1: &mut [u8],
) -> ClockAnswer
    ensures value { result ≡ deal_by_clock dealer (clock_from number seed.now terms
        (table_of firsts.now lasts.now thresholds.now) minute)
        (length out0.old) (length out1.old) }
    ensures out0_after { out0.new ≡ clock_out dealer (clock_from number seed.now terms
        (table_of firsts.now lasts.now thresholds.now) minute)
        out0.old out1.old 0 }
    ensures out1_after { out1.new ≡ clock_out dealer (clock_from number seed.now terms
        (table_of firsts.now lasts.now thresholds.now) minute)
        out0.old out1.old 1 }
{
    let by_clock = ClockOrder {
        number,
        seed,
        terms,
        table: Lists {
            firsts,
            lasts,
            thresholds,
        },
        minute,
    };
    dealer.deal_by_clock(by_clock, out0, out1)
}

// Party 0 is the camera box, party 1 the office box.
pub fn door_start_party(name: &[u8], party: u32, key: &[u8], floor: u64) -> PartyAnswer
    ensures { result ≡ start_party name.now party key.now floor }
{
    Party::start(name, party, key, floor)
}

// Call 1.
pub fn door_load(party: Party, half: &[u8]) -> PartyAnswer
    ensures { result ≡ load party half.now }
{
    party.load(half)
}

// What a load of this half would say, with the door's name, measure code and L if it would be taken. No
// state comes back.
pub fn door_trial(party: Party, half: &[u8]) -> TrialAnswer
    ensures { result ≡ trial party half.now }
{
    party.trial(half)
}

// Call 2. The masked vector goes to the start of out.
pub fn door_mask(party: Party, v: &[u32], out: &mut [u32]) -> PartyAnswer
    ensures value { result ≡ mask party v.now (length out.old) }
    ensures out_after { out.new ≡ mask_out party v.now out.old }
{
    party.mask(v, out)
}

// Call 3: takes the other box's masked vector, and answers this box's word.
pub fn door_take(
    party: Party,
    kind: u32,
    name: &[u8],
    sender: u32,
    number: u64,
    v: &[u32],
) -> PartyAnswer
    ensures { result ≡ take_vector party (record { kind = kind; sender = sender; number = number })
        name.now v.now }
{
    party.take(
        Label {
            kind,
            sender,
            number,
        },
        name,
        v,
    )
}

// Call 4: takes the other box's word, and answers this box's share of the yes or no.
pub fn door_finish(
    party: Party,
    kind: u32,
    name: &[u8],
    sender: u32,
    number: u64,
    word: u32,
) -> PartyAnswer
    ensures { result ≡ finish party
        (record { kind = kind; sender = sender; number = number }) name.now word }
{
    party.finish(
        Label {
            kind,
            sender,
            number,
        },
        name,
        word,
    )
}

// Ends the open set.
pub fn door_drop(party: Party) -> PartyAnswer
    ensures { result ≡ drop_set party }
{
    party.drop()
}

pub fn door_start_lock(name: &[u8], floor: u64) -> LockAnswer
    ensures { result ≡ start_lock name.now floor }
{
    Lock::start(name, floor)
}

// The camera box's answer comes first.
pub fn door_join(
    lock: Lock,
    kind0: u32,
    name0: &[u8],
    sender0: u32,
    number0: u64,
    answer0: u32,
    kind1: u32,
    name1: &[u8],
    sender1: u32,
    number1: u64,
    answer1: u32,
) -> LockAnswer
    ensures { result ≡ join lock (record { kind = kind0; sender = sender0; number = number0 }) name0.now
        answer0 (record { kind = kind1; sender = sender1; number = number1 }) name1.now answer1 }
{
    lock.join(
        Answer {
            label: Label {
                kind: kind0,
                sender: sender0,
                number: number0,
            },
            name: name0,
            answer: answer0,
        },
        Answer {
            label: Label {
                kind: kind1,
                sender: sender1,
                number: number1,
            },
            name: name1,
            answer: answer1,
        },
    )
}

// An iris code from the scanner's order, angle by angle, to ours, ring by ring: 64 bytes to the start of
// out.
pub fn door_iris_to_rings(code: &[u8], out: &mut [u8]) -> u32
    ensures value { result ≡ why_not_code code.now code_bytes (length out.old) }
    ensures out_after { out.new ≡ buffer_after
        (why_not_code code.now code_bytes (length out.old))
        (to_rings code.now) out.old }
{
    measure_iris::to_rings(code, out)
}

// From our order to the scanner's.
pub fn door_iris_to_angles(code: &[u8], out: &mut [u8]) -> u32
    ensures value { result ≡ why_not_code code.now code_bytes (length out.old) }
    ensures out_after { out.new ≡ buffer_after
        (why_not_code code.now code_bytes (length out.old))
        (to_angles code.now) out.old }
{
    measure_iris::to_angles(code, out)
}

// The vector whose element i is bit i of the code: 512 words to the start of out.
pub fn door_iris_unpack(code: &[u8], out: &mut [u32]) -> u32
    ensures value { result ≡ why_not_code code.now code_bits (length out.old) }
    ensures out_after { out.new ≡ buffer_after
        (why_not_code code.now code_bits (length out.old))
        (unpacked code.now) out.old }
{
    measure_iris::unpack(code, out)
}

// The code whose bit i is element i of the vector: 64 bytes to the start of out.
pub fn door_iris_pack(v: &[u32], out: &mut [u8]) -> u32
    ensures value { result ≡ why_not_vector v.now (length out.old) }
    ensures out_after { out.new ≡ buffer_after
        (why_not_vector v.now (length out.old))
        (packed v.now) out.old }
{
    measure_iris::pack(v, out)
}

// In how many bits two codes of one order differ.
pub fn door_iris_hamming(a: &[u8], b: &[u8]) -> HammingAnswer
    ensures { result ≡ hamming_answer a.now b.now }
{
    measure_iris::hamming(a, b)
}

// How much jitter a stored face stands: for X, Y and T under code 0, the answer for X, and the largest e
// from 0 to 2047 such that no whole-number vector with each element within e of X changes it.
pub fn door_margin(x: &[u32], y: &[u32], t: u32) -> MarginAnswer
    ensures { Answered x.now y.now t result }
{
    measure_margin::margin(x, y, t)
}
