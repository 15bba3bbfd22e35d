// What a line of a script asks of a door's four parts (docs/REPLAY.md). `test_replay` runs it.
#![tactic(auto)]

mod calls;
mod starts;
mod states;

use door_parts::{Door, DoorAnswer};
use test_replay_lines::command::{Command, Part};
use test_replay_lines::memory::Memory;
use test_replay_lines::request::Request;

// The door before the first start.
pub fn closed() -> Door {
    Door {
        dealer: states::no_dealer(),
        camera: states::no_party(),
        office: states::no_party(),
        lock: states::no_lock(),
    }
}

// A start, `put`, `waiting`, `width` or `show`: the next door, or why a start was refused.
fn prepare(door: Door, m: &mut Memory, r: Request) -> Result<Door, u32> {
    let mut next = door;
    match r.part {
        Some(Part::Camera) => next.camera = starts::party(door.camera, m, r)?,
        Some(Part::Office) => next.office = starts::party(door.office, m, r)?,
        Some(Part::Dealer) => next.dealer = starts::dealer(door.dealer, m, r)?,
        Some(Part::Lock) => next.lock = starts::lock(door.lock, m, r)?,
        None => {}
    }
    Ok(next)
}

// A refused start leaves the door as it was.
fn prepared(door: Door, m: &mut Memory, r: Request) -> DoorAnswer {
    match prepare(door, m, r) {
        Ok(next) => DoorAnswer {
            why: 0,
            word: 0,
            door: next,
        },
        Err(why) => DoorAnswer { why, word: 0, door },
    }
}

// What a line asks: a call, or what stands beside the calls.
pub fn call(door: Door, m: &mut Memory, r: Request) -> DoorAnswer {
    match r.command {
        Command::Deal => calls::deal(door, m, r),
        Command::Clock => calls::clock(door, m, r),
        Command::Load | Command::Mixed | Command::Bytes => calls::load(door, m, r),
        Command::Trial | Command::TrialMixed | Command::TrialBytes => calls::trial(door, m, r),
        Command::Mask => calls::mask(door, m, r),
        Command::Take => calls::take(door, m, r),
        Command::Finish => calls::finish(door, m, r),
        Command::Drop => calls::drop(door, r),
        Command::Join => calls::join(door, m, r),
        _ => prepared(door, m, r),
    }
}
