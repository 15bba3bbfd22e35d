// The lock's join and its number for the lock's host: it keeps the padded name and the last number
// itself, and hands them in beside the two answers. c_lock_c has both as C functions. No function asks
// anything of its caller.
// kept: the C interface; lock_join and lock_last take an answer's parts one by one.
#![tactic(auto)]

ghost use Rattle.std.specs.Prelude.{◌≡◌};
ghost use Rattle.c_lock.specs.Host.{label, answer_on, c_join, c_last};

use base_messages::{Label, NAME, Refusal};
use call_lock::{Answer, Lock, LockAnswer};

// A refused join answers this and the refusal's number.
const REFUSED: u32 = 100;

// What a join on the host's name and number answers. A name that is not 16 bytes long is refused.
fn answer_on(name: &[u8], last: u64, camera: Answer, office: Answer) -> LockAnswer
    ensures { result ≡ answer_on name.now last
        camera.entry.label camera.entry.name.now camera.entry.answer
        office.entry.label office.entry.name.now office.entry.answer }
{
    if name.len() != NAME {
        return LockAnswer {
            why: Refusal::WrongLength.number(),
            lock: Lock {
                name: [0; NAME],
                last,
            },
            bit: 0,
        };
    }
    let lock = Lock {
        name: base_messages::padded(name),
        last,
    };
    lock.join(camera, office)
}

// 0 or 1, or 100 plus the refusal's number. Party 0's answer comes first.
pub fn lock_join(
    name: &[u8],
    last: u64,
    kind0: u32,
    name0: &[u8],
    sender0: u32,
    number0: u64,
    answer0: u32,
    kind1: u32,
    name1: &[u8],
    sender1: u32,
    number1: u64,
    answer1: u32,
) -> u32
    ensures { result ≡ c_join name.now last (label kind0 sender0 number0)
        name0.now answer0 (label kind1 sender1 number1) name1.now answer1 }
{
    let camera = Answer {
        label: Label {
            kind: kind0,
            sender: sender0,
            number: number0,
        },
        name: name0,
        answer: answer0,
    };
    let office = Answer {
        label: Label {
            kind: kind1,
            sender: sender1,
            number: number1,
        },
        name: name1,
        answer: answer1,
    };
    let a = answer_on(name, last, camera, office);
    if a.why == 0 { a.bit } else { REFUSED + a.why }
}

// The lock's last number after that join: the joined one, or where it was refused the one handed in.
pub fn lock_last(
    name: &[u8],
    last: u64,
    kind0: u32,
    name0: &[u8],
    sender0: u32,
    number0: u64,
    answer0: u32,
    kind1: u32,
    name1: &[u8],
    sender1: u32,
    number1: u64,
    answer1: u32,
) -> u64
    ensures { result ≡ c_last name.now last (label kind0 sender0 number0)
        name0.now answer0 (label kind1 sender1 number1) name1.now answer1 }
{
    let camera = Answer {
        label: Label {
            kind: kind0,
            sender: sender0,
            number: number0,
        },
        name: name0,
        answer: answer0,
    };
    let office = Answer {
        label: Label {
            kind: kind1,
            sender: sender1,
            number: number1,
        },
        name: name1,
        answer: answer1,
    };
    let after = answer_on(name, last, camera, office);
    after.lock.last
}
