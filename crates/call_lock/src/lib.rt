// The lock: joins the two boxes' answers to a yes or no.
#![tactic(auto)]

ghost use Rattle.std.specs.Prelude.{◌≡◌};
ghost use Rattle.base_messages.specs.Messages.{answer_kind, expected};
ghost use Rattle.base_messages.specs.Refusals.{number_of, why_of};
ghost use Rattle.call_lock.specs.Lock.{refused as refused_for, start_lock, why_not_join, join as join_of};

use base_messages::{Label, NAME, Refusal};

// The door's padded name and the last joined number.
#[repr(C)]
#[derive(Clone, Copy)]
pub struct Lock {
    pub name: [u8; NAME],
    pub last: u64,
}

// Why a call was refused (0 if it was not), the next state, and what a join reports.
// kept: the C interface; door_start_lock and door_join give it back.
#[repr(C)]
#[derive(Clone, Copy)]
pub struct LockAnswer {
    pub why: u32,
    pub lock: Lock,
    pub bit: u32,
}

// A box's answer, with its message's label and name.
#[derive(Clone, Copy)]
pub struct Answer<'a> {
    pub label: Label,
    pub name: &'a [u8],
    pub answer: u32,
}

impl Answer<'_> {
    // Whether it is an answer under the door's name, from this sender.
    fn expected(self, door: [u8; NAME], sender: u32) -> bool
        ensures { result ≡ expected answer_kind door sender self.entry.label self.entry.name.now }
    {
        base_messages::expected(base_messages::ANSWER, door, sender, self.label, self.name)
    }
}

// A refused call's answer: the state as it was.
fn refused(refusal: Refusal, lock: Lock) -> LockAnswer
    ensures { result ≡ refused_for (number_of refusal) lock }
{
    LockAnswer {
        why: refusal.number(),
        lock,
        bit: 0,
    }
}

impl Lock {
    pub fn start(name: &[u8], floor: u64) -> LockAnswer
        ensures { result ≡ start_lock name.now floor }
    {
        if !base_messages::name_fits(name) {
            return refused(
                Refusal::BadName,
                Lock {
                    name: [0; NAME],
                    last: 0,
                },
            );
        }
        LockAnswer {
            why: 0,
            lock: Lock {
                name: base_messages::padded(name),
                last: floor,
            },
            bit: 0,
        }
    }

    pub fn join(self, camera: Answer, office: Answer) -> LockAnswer
        ensures { result ≡ join_of self
            camera.entry.label camera.entry.name.now camera.entry.answer
            office.entry.label office.entry.name.now office.entry.answer }
    {
        if let Err(refusal) = why_not_join(self, camera, office) {
            return refused(refusal, self);
        }
        LockAnswer {
            why: 0,
            lock: Lock {
                last: camera.label.number,
                ..self
            },
            bit: base_words::add(camera.answer, office.answer),
        }
    }
}

fn why_not_join(lock: Lock, camera: Answer, office: Answer) -> Result<(), Refusal>
    ensures { why_of result ≡ why_not_join lock
        camera.entry.label camera.entry.name.now camera.entry.answer
        office.entry.label office.entry.name.now office.entry.answer }
{
    let first = camera.expected(lock.name, base_messages::CAMERA);
    let second = office.expected(lock.name, base_messages::OFFICE);
    let sum = base_words::add(camera.answer, office.answer);
    let lengths = (camera.name.len() == NAME) & (office.name.len() == NAME);
    let labels = first & second;
    let numbers = (lock.last < camera.label.number) & (office.label.number == camera.label.number);
    base_messages::first_refusal(
        (lengths, Refusal::WrongLength),
        (labels, Refusal::WrongMessage),
        (numbers, Refusal::WrongNumber),
        (sum <= 1, Refusal::BadSum),
    )
}
