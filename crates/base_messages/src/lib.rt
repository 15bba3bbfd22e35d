// What every call of a door has in common: the door's name and a message's label.
#![tactic(auto)]

ghost use Rattle.std.specs.Prelude.{◌≡◌, ◌≤◌, Ok, length};
ghost use Rattle.base_messages.specs.Refusals.{number_of, or_refuse, why_of};
ghost use Rattle.base_messages.specs.Messages.{printable as printable_of, name_fits, padded as padded_of};
ghost use Rattle.base_messages.specs.Messages.{expected as expected_of};

// Why a call is turned down (01, "When a call is turned down"), with its number: c/door.h says each in words.
#[derive(Clone, Copy, Debug, PartialEq, Eq)]
pub enum Refusal {
    BadName = 1,
    BadPartyOrCode = 2,
    OutOfTurn = 3,
    WrongLength = 4,
    ShortBuffer = 5,
    WrongMessage = 6,
    WrongNumber = 7,
    OutOfRange = 8,
    EqualKeys = 9,
    BadBlock = 10,
    BadContent = 11,
    BadSum = 12,
    BadMarks = 13,
    BadRows = 14,
    NoRow = 15,
    MoreRows = 16,
}

impl Refusal {
    pub fn number(self) -> u32
        ensures { result ≡ number_of self }
    {
        self as u32
    }
}

// The number that a call answers: a refusal's own, or 0 where nothing refuses.
pub fn why(answer: Result<(), Refusal>) -> u32
    ensures { result ≡ why_of answer }
{
    match answer {
        Ok(()) => 0,
        Err(refusal) => refusal.number(),
    }
}

// A message's kind.
// kept: the C interface hands kind and sender in as numbers, and a host may send any (`Label` is repr(C)).
pub const VECTOR: u32 = 0;

pub const WORD: u32 = 1;

pub const ANSWER: u32 = 2;

// The parties: party 0 is the camera box, party 1 the office box.
// kept: the C interface has them as numbers, of which a host may hand in any (`Identity` is repr(C)).
pub const CAMERA: u32 = 0;

pub const OFFICE: u32 = 1;

// The bytes of a padded name, and of a box's key.
pub const NAME: usize = 16;

pub const KEY: usize = 32;

// Who a box is: the door's padded name, its party and its key.
#[repr(C)]
#[derive(Clone, Copy)]
pub struct Identity {
    pub name: [u8; NAME],
    pub party: u32,
    pub key: [u8; KEY],
}

// What a message carries beside its name and its content.
#[repr(C)]
#[derive(Clone, Copy)]
pub struct Label {
    pub kind: u32,
    pub sender: u32,
    pub number: u64,
}

// Goes on if a test holds; else the refusal beside it is why not. (`E` is `Refusal` in every call of a door.)
pub fn require<E: Copy>(holds: bool, refusal: E) -> Result<(), E>
    ensures { result ≡ or_refuse holds refusal (Ok tt) }
{
    if holds { Ok(()) } else { Err(refusal) }
}

// The refusal beside the first test that fails, if one does.
pub fn first_refusal<E: Copy>(
    first: (bool, E),
    second: (bool, E),
    third: (bool, E),
    fourth: (bool, E),
) -> Result<(), E>
    ensures { result ≡ or_refuse first.0 first.1 (or_refuse second.0 second.1
        (or_refuse third.0 third.1 (or_refuse fourth.0 fourth.1 (Ok tt)))) }
{
    require(first.0, first.1)?;
    require(second.0, second.1)?;
    require(third.0, third.1)?;
    require(fourth.0, fourth.1)
}

// Whether every byte lies from 32 to 126.
fn printable(name: &[u8]) -> bool
    ensures { result ≡ printable_of name.now }
{
    let mut all = true;
    for byte in name {
        all = all & ((32 <= *byte) & (*byte <= 126));
    }
    all
}

// Whether a start takes the name.
pub fn name_fits(name: &[u8]) -> bool
    ensures { result ≡ name_fits name.now }
{
    if !(name.len() <= NAME) {
        return false;
    }
    (1 <= name.len()) & printable(name)
}

// The name as messages carry it, zero after its end.
pub fn padded(name: &[u8]) -> [u8; NAME]
    requires { length name.now ≤ 16 }
    ensures { result ≡ padded_of name.now }
{
    let mut out = [0u8; NAME];
    base_slices::copy(&mut out, 0, name);
    out
}

// Whether a message is of the kind that a call takes, under the door's padded name, and from the
// expected party.
// kept: label and name stay two, since a struct of both would be taken apart in the one line that reads it.
pub fn expected(kind: u32, door: [u8; NAME], sender: u32, label: Label, name: &[u8]) -> bool
    ensures { result ≡ expected_of kind door sender label name.now }
{
    (label.kind == kind) & (base_slices::equal(name, &door) & (label.sender == sender))
}
