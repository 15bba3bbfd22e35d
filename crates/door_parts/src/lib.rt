// A door's four parts as one value, with their calls (01, "A door's list of calls"). Each call is a step
// of the lists that demand 3 speaks of: it goes to its part, whose next state is put back, and the other
// three parts stay. A trial has no next state.
#![tactic(auto)]

ghost use Rattle.std.specs.Prelude.{◌≡◌};
ghost use Rattle.call_dealer.specs.Dealer.{deal_in, deal_out};
ghost use Rattle.call_dealer.specs.Clock.{clock_in, clock_out};
ghost use Rattle.call_party.specs.Party.{mask_out};
ghost use Rattle.door_lists.specs.Lists.{deal, load, mask, take, finish, drop, join};
ghost use Rattle.door_parts.specs.Door.{box_of, boxes, with_box, box_answer, call, clock_call, trial_call};

use base_messages::{Label, NAME};
use call_dealer::{ClockOrder, Dealer, Order};
use call_lock::{Answer, Lock};
use call_party::{Party, PartyAnswer};
use measure_table::Terms;

// Which box is called.
#[derive(Clone, Copy)]
pub enum Side {
    Camera,
    Office,
}

// The states of the four parts.
#[derive(Clone, Copy)]
pub struct Door {
    pub dealer: Dealer,
    pub camera: Party,
    pub office: Party,
    pub lock: Lock,
}

// kept: (a) an answer of a door holds what its part's holds, and that is the C interface.
// Why a call was refused (0 if it was not), the number that it answered (the word of call 3, the share of
// call 4, what a join reported, else 0), and the next door.
#[derive(Clone, Copy)]
pub struct DoorAnswer {
    pub why: u32,
    pub word: u32,
    pub door: Door,
}

// kept: (a) as `DoorAnswer`.
// The same of a deal by the clock, with a place where the others have a word.
#[derive(Clone, Copy)]
pub struct PlacedAnswer {
    pub why: u32,
    pub place: u32,
    pub door: Door,
}

// kept: (a) as `DoorAnswer`.
// The same of a trial, with what it tells of the half.
#[derive(Clone, Copy)]
pub struct TriedAnswer {
    pub why: u32,
    pub name: [u8; NAME],
    pub terms: Terms,
    pub door: Door,
}

impl Door {
    // A box's state.
    fn at(self, side: Side) -> Party
        ensures { result ≡ boxes self (box_of side) }
    {
        match side {
            Side::Camera => self.camera,
            Side::Office => self.office,
        }
    }

    // The door with a box's next state.
    fn with(self, side: Side, party: Party) -> Door
        ensures { result ≡ with_box self side party }
    {
        match side {
            Side::Camera => Door {
                camera: party,
                ..self
            },
            Side::Office => Door {
                office: party,
                ..self
            },
        }
    }

    // What the door answers where a box answers `a`.
    fn on_box(self, side: Side, a: PartyAnswer) -> DoorAnswer
        ensures { result ≡ box_answer self side a }
    {
        DoorAnswer {
            why: a.why,
            word: a.word,
            door: self.with(side, a.party),
        }
    }

    // By a threshold, or between two marks. Party 0's half is written to out0, party 1's to out1.
    pub fn deal(self, order: Order, out0: &mut [u8], out1: &mut [u8]) -> DoorAnswer
        ensures value { result ≡ call self (deal (deal_in order.entry) out0.old out1.old) }
        ensures out0_after { out0.new ≡ deal_out self.dealer (deal_in order.entry) out0.old out1.old 0 }
        ensures out1_after { out1.new ≡ deal_out self.dealer (deal_in order.entry) out0.old out1.old 1 }
    {
        let a = self.dealer.deal(order, out0, out1);
        DoorAnswer {
            why: a.why,
            word: 0,
            door: Door {
                dealer: a.dealer,
                ..self
            },
        }
    }

    // By the threshold of the table's row in which the minute lies.
    pub fn deal_by_clock(self, order: ClockOrder, out0: &mut [u8], out1: &mut [u8]) -> PlacedAnswer
        ensures value { result ≡ clock_call self (clock_in order.entry) out0.old out1.old }
        ensures out0_after { out0.new ≡ clock_out self.dealer (clock_in order.entry) out0.old out1.old 0 }
        ensures out1_after { out1.new ≡ clock_out self.dealer (clock_in order.entry) out0.old out1.old 1 }
    {
        let dealt = self.dealer.deal_by_clock(order, out0, out1);
        PlacedAnswer {
            why: dealt.why,
            place: dealt.place,
            door: Door {
                dealer: dealt.dealer,
                ..self
            },
        }
    }

    // Call 1.
    pub fn load(self, side: Side, half: &[u8]) -> DoorAnswer
        ensures { result ≡ call self (load (box_of side) half.now) }
    {
        let party = self.at(side);
        self.on_box(side, party.load(half))
    }

    // What a load of this half would say. The door is as it was.
    pub fn trial(self, side: Side, half: &[u8]) -> TriedAnswer
        ensures { result ≡ trial_call self side half.now }
    {
        let party = self.at(side);
        let a = party.trial(half);
        // kept: an array field that goes straight from one struct to another isn't covered by the check.
        let name = a.name;
        TriedAnswer {
            why: a.why,
            name,
            terms: a.terms,
            door: self,
        }
    }

    // Call 2. The masked vector goes to the start of out.
    pub fn mask(self, side: Side, v: &[u32], out: &mut [u32]) -> DoorAnswer
        ensures value { result ≡ call self (mask (box_of side) v.now out.old) }
        ensures out_after { out.new ≡ mask_out (boxes self (box_of side)) v.now out.old }
    {
        let party = self.at(side);
        self.on_box(side, party.mask(v, out))
    }

    // Call 3: takes the other box's masked vector, and answers this box's word.
    // kept: (d) label and name apart: a call of a box has one of each, and `base_messages::expected` takes both.
    pub fn take(self, side: Side, label: Label, name: &[u8], v: &[u32]) -> DoorAnswer
        ensures { result ≡ call self
            (take (box_of side) (record { label = label; name = name.now; content = v.now })) }
    {
        let party = self.at(side);
        self.on_box(side, party.take(label, name, v))
    }

    // Call 4: takes the other box's word, and answers this box's share of the yes or no.
    // kept: (d) label and name apart: a call of a box has one of each, and `base_messages::expected` takes both.
    pub fn finish(self, side: Side, label: Label, name: &[u8], word: u32) -> DoorAnswer
        ensures { result ≡ call self
            (finish (box_of side) (record { label = label; name = name.now; content = word })) }
    {
        let party = self.at(side);
        self.on_box(side, party.finish(label, name, word))
    }

    // Ends a box's open set.
    pub fn drop(self, side: Side) -> DoorAnswer
        ensures { result ≡ call self (drop (box_of side)) }
    {
        let party = self.at(side);
        self.on_box(side, party.drop())
    }

    pub fn join(self, camera: Answer, office: Answer) -> DoorAnswer
        ensures { result ≡ call self (join
            (record { label = camera.entry.label; name = camera.entry.name.now; content = camera.entry.answer })
            (record { label = office.entry.label; name = office.entry.name.now; content = office.entry.answer })) }
    {
        let a = self.lock.join(camera, office);
        DoorAnswer {
            why: a.why,
            word: a.bit,
            door: Door {
                lock: a.lock,
                ..self
            },
        }
    }
}
