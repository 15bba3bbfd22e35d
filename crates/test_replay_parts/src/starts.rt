// The starts of a door's parts, and what a script does to a state beside its calls: `put`, `waiting`,
// `width` and `show`. Each answers the part's next state, or why its start was refused.
use crate::states;
use call_dealer::Dealer;
use call_lock::Lock;
use call_party::Party;
use measure_table::Terms;
use test_replay_lines::command::Command;
use test_replay_lines::memory::Memory;
use test_replay_lines::request::Request;

// dealer NAME KEY0 KEY1 FLOOR
fn start_dealer(m: &Memory, r: Request) -> Result<Dealer, u32> {
    let a = Dealer::start(m.field(1), m.field(2), m.field(3), r.number(4));
    if a.why == 0 { Ok(a.dealer) } else { Err(a.why) }
}

pub fn dealer(d: Dealer, m: &mut Memory, r: Request) -> Result<Dealer, u32> {
    match r.command {
        Command::Dealer => start_dealer(m, r),
        Command::Show => {
            states::put_dealer(&mut m.first, d);
            Ok(d)
        }
        _ => Ok(d),
    }
}

// party BOX NAME PARTY KEY FLOOR
fn start_party(m: &Memory, r: Request) -> Result<Party, u32> {
    let a = Party::start(m.field(2), r.word(3), m.field(4), r.number(5));
    if a.why == 0 { Ok(a.party) } else { Err(a.why) }
}

// put BOX PHASE PARTY CODE L
fn put(p: Party, r: Request) -> Party {
    let mut next = p;
    next.check.phase = r.word(2);
    next.who.party = r.word(3);
    next.check.set.terms = Terms {
        code: r.word(4),
        n: r.size(5),
    };
    next
}

// kept: it puts what a line says into a state, and prints nothing.
// waiting BOX NUMBER CODE L
fn put_waiting(p: Party, r: Request) -> Party {
    let mut next = p;
    next.waiting.number = r.number(2);
    next.waiting.terms = Terms {
        code: r.word(3),
        n: r.size(4),
    };
    next
}

// kept: as `put_waiting`.
// width BOX WIDTH MARK
fn put_width(p: Party, r: Request) -> Party {
    let mut next = p;
    next.check.set.width = r.word(2);
    next.check.set.mark = r.word(3);
    next
}

pub fn party(p: Party, m: &mut Memory, r: Request) -> Result<Party, u32> {
    match r.command {
        Command::Party => start_party(m, r),
        Command::Put => Ok(put(p, r)),
        Command::Waiting => Ok(put_waiting(p, r)),
        Command::Width => Ok(put_width(p, r)),
        Command::Show => {
            states::put_party(&mut m.first, p);
            Ok(p)
        }
        _ => Ok(p),
    }
}

// lock NAME FLOOR
fn start_lock(m: &Memory, r: Request) -> Result<Lock, u32> {
    let a = Lock::start(m.field(1), r.number(2));
    if a.why == 0 { Ok(a.lock) } else { Err(a.why) }
}

pub fn lock(lock: Lock, m: &mut Memory, r: Request) -> Result<Lock, u32> {
    match r.command {
        Command::Lock => start_lock(m, r),
        Command::Show => {
            states::put_lock(&mut m.first, lock);
            Ok(lock)
        }
        _ => Ok(lock),
    }
}
