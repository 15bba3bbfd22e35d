// A box: loads a half, masks its vector, takes the other's masked vector and word, and answers (01,
// "One check at a box"). A call takes the state by value and hands the next one back; a refused one
// hands it back as it was, with the refusal's number, and leaves every lent buffer as it was. A trial
// (02, "Trial load") hands none back.
// [SPEC 12.1, 15.3, 16.3, 17.5, 18.5, 19.1, 22.4, 22.5, 34.1 to 34.3]
#![tactic(auto)]

ghost use Rattle.std.specs.Prelude.{◌≡◌, ◌-◌, ◌≤◌, eqb, leb, length};
ghost use Rattle.base_words.specs.List.{over};
ghost use Rattle.measure_table.specs.Measure.{most_elements, all_in_range};
ghost use Rattle.share_vectors.specs.Share.{plus};
ghost use Rattle.base_messages.specs.Messages.{out_of_turn, wrong_length, short_buffer, wrong_message, wrong_number};
ghost use Rattle.base_messages.specs.Messages.{out_of_range, office_party, unless, expected};
ghost use Rattle.base_messages.specs.Refusals.{number_of, why_of};
ghost use Rattle.half_content.specs.Content.{fill, no_terms, no_set};
ghost use Rattle.call_party.specs.Party.{no_check, opened as opened_check, idle as idle_of, why_not_party, start_party};
ghost use Rattle.call_party.specs.Party.{next_check, high_water, state_fits, waiting_fits, sound as sound_of, in_turn};
ghost use Rattle.call_party.specs.Party.{load_turn, load as load_of, no_name, trial as trial_of, mask as mask_of};
ghost use Rattle.call_party.specs.Party.{mask_out, take_vector as take_of, box_share, finish as finish_of};
ghost use Rattle.call_party.specs.Party.{drop_set as drop_of};

use base_messages::{Identity, KEY, Label, NAME, Refusal};
use half_content::Set;
use measure_table::{MOST_ELEMENTS, Terms};

// A check's phase: with no set open, and after calls 1, 2 and 3.
// kept: the C interface; a host hands states in, and one of another phase is refused with 3.
pub const IDLE: u32 = 0;

pub const LOADED: u32 = 1;

pub const MASKED: u32 = 2;

pub const TAKEN: u32 = 3;

// The check that a box has open: the set, this box's masked vector and own term after call 2, and its
// word after call 3. With no set open all of it is zero. [SPEC 1.2, 1.3, 12.5, 12.8]
#[repr(C)]
#[derive(Clone, Copy)]
pub struct Check {
    pub phase: u32,
    pub set: Set,
    pub masked: [u32; MOST_ELEMENTS],
    pub own: u32,
    pub word: u32,
}

// A box of 01: who it is, its last set number, its check, and the set that waits for that check to
// end. A set waits if its L is not 0; with none waiting all of it is zero.
#[repr(C)]
#[derive(Clone, Copy)]
pub struct Party {
    pub who: Identity,
    pub last: u64,
    pub check: Check,
    pub waiting: Set,
}

// Why a call was refused (0 if it was not), the next state, and the word or answer that is sent.
// kept: the C interface; door_start_party to door_drop give it back.
#[repr(C)]
#[derive(Clone, Copy)]
pub struct PartyAnswer {
    pub why: u32,
    pub party: Party,
    pub word: u32,
}

// What a trial says: why a load would be refused (0 if it would not), and of a half that it would take
// the door's name, and measure code and L, as they stand in the half. Else these are zero.
// kept: the C interface; door_trial gives it back.
#[repr(C)]
#[derive(Clone, Copy)]
pub struct TrialAnswer {
    pub why: u32,
    pub name: [u8; NAME],
    pub terms: Terms,
}

// Whether a call could have left this party, phase, code and length in a state.
fn state_fits(party: u32, phase: u32, terms: Terms) -> bool
    ensures { result ≡ state_fits party phase terms }
{
    if !(party <= base_messages::OFFICE) {
        return false;
    }
    if phase == IDLE {
        return (terms.code == 0) & (terms.n == 0);
    }
    (phase <= TAKEN) & (measure_table::is_code(terms.code) & measure_table::length_fits(terms))
}

// Whether a call could have left this waiting number, code and length beside this phase and open
// number.
fn waiting_fits(phase: u32, number: u64, waiting: u64, terms: Terms) -> bool
    ensures { result ≡ waiting_fits phase number waiting terms }
{
    if terms.n == 0 {
        return terms.code == 0;
    }
    (phase != IDLE)
        & ((number < waiting)
            & (measure_table::is_code(terms.code) & measure_table::length_fits(terms)))
}

// Whether a call could have left this state, as far as it is tested. (Compiled in place, it copies
// nothing.)
fn sound(s: Party) -> bool
    ensures { result ≡ sound_of s }
{
    let phase = s.check.phase;
    state_fits(s.who.party, phase, s.check.set.terms)
        & waiting_fits(phase, s.check.set.number, s.waiting.number, s.waiting.terms)
}

// Whether it is the turn of the call that comes at phase `wanted`.
fn in_turn(wanted: u32, s: Party) -> bool
    ensures { result ≡ in_turn wanted s }
{
    (s.check.phase == wanted) & sound(s)
}

// Whether it is the turn of a load: a set more may be loaded if none waits.
fn load_turn(s: Party) -> bool
    ensures { result ≡ load_turn s }
{
    let waits = s.waiting.terms.n != 0;
    !waits & sound(s)
}

// What a half's number has to be above.
fn high_water(phase: u32, number: u64, last: u64) -> u64
    ensures { result ≡ high_water phase number last }
{
    if (phase != IDLE) & (last <= number) {
        number
    } else {
        last
    }
}

fn no_check() -> Check
    ensures { result ≡ no_check }
{
    Check {
        phase: IDLE,
        set: half_content::no_set(),
        masked: [0; MOST_ELEMENTS],
        own: 0,
        word: 0,
    }
}

// The check that a set opens.
fn opened(set: Set) -> Check
    ensures { result ≡ opened_check set }
{
    Check {
        phase: LOADED,
        set,
        masked: [0; MOST_ELEMENTS],
        own: 0,
        word: 0,
    }
}

// A box with no set open.
fn idle(who: Identity, last: u64) -> Party
    ensures { result ≡ idle_of who last }
{
    Party {
        who,
        last,
        check: no_check(),
        waiting: half_content::no_set(),
    }
}

// The check that follows one that has ended.
fn next_check(waiting: Set) -> Check
    ensures { result ≡ next_check waiting }
{
    if waiting.terms.n == 0 {
        return no_check();
    }
    opened(waiting)
}

// A box whose check has ended: the waiting set, if there is one, becomes the open one.
fn closed(who: Identity, last: u64, waiting: Set) -> Party
    ensures { result ≡ record { who = who; last = last; check = next_check waiting; waiting = no_set } }
{
    Party {
        who,
        last,
        check: next_check(waiting),
        waiting: half_content::no_set(),
    }
}

// A refused call's answer: the state as it was.
fn refused(refusal: Refusal, party: Party) -> PartyAnswer
    ensures { result ≡ record { why = number_of refusal; party = party; word = 0 } }
{
    PartyAnswer {
        why: refusal.number(),
        party,
        word: 0,
    }
}

// What a trial says of a half that would be turned down: the number alone.
fn not_taken(refusal: Refusal) -> TrialAnswer
    ensures { result ≡ record { why = number_of refusal; name = no_name; terms = no_terms } }
{
    TrialAnswer {
        why: refusal.number(),
        name: [0; NAME],
        terms: Terms { code: 0, n: 0 },
    }
}

fn why_not_start(name: &[u8], party: u32, key: &[u8]) -> Result<(), Refusal>
    ensures { why_of result ≡ why_not_party name.now party key.now }
{
    if !base_messages::name_fits(name) {
        return Err(Refusal::BadName);
    }
    if !(party <= base_messages::OFFICE) {
        return Err(Refusal::BadPartyOrCode);
    }
    if !(key.len() == KEY) {
        return Err(Refusal::WrongLength);
    }
    Ok(())
}

// Call 2's refusals, from what decides them: whether the state and the turn fit, the set's terms, the
// vector, and the room in the buffer.
fn why_not_mask(turn: bool, terms: Terms, v: &[u32], room: usize) -> Result<(), Refusal>
    ensures { why_of result ≡ unless turn out_of_turn (unless (eqb (length v.now) terms.n) wrong_length
        (unless (leb terms.n room) short_buffer (unless (all_in_range terms v.now) out_of_range 0))) }
{
    if !turn {
        return Err(Refusal::OutOfTurn);
    }
    if !(v.len() == terms.n) {
        return Err(Refusal::WrongLength);
    }
    if !(terms.n <= room) {
        return Err(Refusal::ShortBuffer);
    }
    if !measure_table::all_in_range(terms, v) {
        return Err(Refusal::OutOfRange);
    }
    Ok(())
}

// The other party.
fn other(party: u32) -> u32
    ensures { result ≡ office_party - party }
{
    if party == base_messages::CAMERA {
        base_messages::OFFICE
    } else {
        base_messages::CAMERA
    }
}

// The refusals of calls 3 and 4, from what decides them: whether the state and the turn fit, whether
// all that came is as long as it should be, the kind of message that the call takes, who this box is and
// its open set's number, and the message's label and name.
fn why_not_message(
    turn: bool,
    lengths: bool,
    kind: u32,
    who: Identity,
    number: u64,
    label: Label,
    name: &[u8],
) -> Result<(), Refusal>
    ensures { why_of result ≡ unless turn out_of_turn (unless lengths wrong_length (unless (expected kind who.name
        (office_party - who.party) label name.now) wrong_message (unless (eqb label.number number) wrong_number 0))) }
{
    let fits = base_messages::expected(kind, who.name, other(who.party), label, name);
    base_messages::first_refusal(
        (turn, Refusal::OutOfTurn),
        (lengths, Refusal::WrongLength),
        (fits, Refusal::WrongMessage),
        (label.number == number, Refusal::WrongNumber),
    )
}

// A box's share of the product: MX is party 0's masked vector, MY party 1's.
fn box_share(party: u32, check: &Check, other: &[u32]) -> u32
    requires { (check.now.set.terms.n ≤ most_elements) × (check.now.set.terms.n ≤ length other.now) }
    ensures { result ≡ box_share party check.now.set.terms.n check.now.set.c check.now.masked other.now
        check.now.set.x check.now.set.y }
{
    let n = check.set.terms.n;
    if party == base_messages::CAMERA {
        return share_vectors::share_of(
            party,
            n,
            check.set.c,
            &check.masked,
            other,
            &check.set.x,
            &check.set.y,
        );
    }
    share_vectors::share_of(
        party,
        n,
        check.set.c,
        other,
        &check.masked,
        &check.set.x,
        &check.set.y,
    )
}

// A vector's array: v and the mask, added over the first n places.
fn masked_array(n: usize, v: &[u32], mask: &[u32; MOST_ELEMENTS]) -> [u32; MOST_ELEMENTS]
    requires { (n ≤ most_elements) × (n ≤ length v.now) }
    ensures { result ≡ fill (plus n v.now mask.now) }
{
    let mut out = [0u32; MOST_ELEMENTS];
    share_vectors::add_vectors(n, v, mask, &mut out);
    out
}

// The same from the start of out.
fn write_masked(n: usize, v: &[u32], mask: &[u32; MOST_ELEMENTS], out: &mut [u32])
    requires { (n ≤ most_elements) × (n ≤ length v.now) × (n ≤ length out.old) }
    ensures { out.new ≡ over 0 (plus n v.now mask.now) out.old }
{
    share_vectors::add_vectors(n, v, mask, out);
}

impl Party {
    // A box's start. A refused one has an all-zero state beside the number.
    pub fn start(name: &[u8], party: u32, key: &[u8], floor: u64) -> PartyAnswer
        ensures { result ≡ start_party name.now party key.now floor }
    {
        if let Err(refusal) = why_not_start(name, party, key) {
            let nobody = Identity {
                name: [0; NAME],
                party: 0,
                key: [0; KEY],
            };
            return refused(refusal, idle(nobody, 0));
        }
        let who = Identity {
            name: base_messages::padded(name),
            party,
            key: base_slices::bytes_32(key),
        };
        PartyAnswer {
            why: 0,
            party: idle(who, floor),
            word: 0,
        }
    }

    // Call 1. Refused or not, the answer is made at one place: LLVM then copies the state twice, and with
    // an answer for each case three times.
    pub fn load(self, h: &[u8]) -> PartyAnswer
        ensures { result ≡ load_of self h.now }
    {
        let phase = self.check.phase;
        let turn = load_turn(self);
        let mut next = self;
        let out_of_turn = Refusal::OutOfTurn.number();
        let mut why = out_of_turn;
        if turn {
            let who = self.who;
            let name = who.name;
            let above = high_water(phase, self.check.set.number, self.last);
            match half_open::examine(&who.key, name, who.party, above, h) {
                Ok(set) => {
                    why = 0;
                    next.last = set.number;
                    if phase == IDLE {
                        next.check = opened(set);
                        next.waiting = half_content::no_set();
                    } else {
                        next.waiting = set;
                    }
                }
                Err(refusal) => why = refusal.number(),
            }
        }
        PartyAnswer {
            why,
            party: next,
            word: 0,
        }
    }

    // What a load of this half would say. No state comes back: nothing is committed, and no number spent.
    pub fn trial(self, h: &[u8]) -> TrialAnswer
        ensures { result ≡ trial_of self h.now }
    {
        if !load_turn(self) {
            return not_taken(Refusal::OutOfTurn);
        }
        let who = self.who;
        let name = who.name;
        let above = high_water(self.check.phase, self.check.set.number, self.last);
        match half_open::tell(&who.key, name, who.party, above, h) {
            Ok(told) => TrialAnswer {
                why: 0,
                name,
                terms: told,
            },
            Err(refusal) => not_taken(refusal),
        }
    }

    // Call 2. The masked vector goes to the start of out. The answer is made at one place, as in `load`.
    pub fn mask(self, v: &[u32], out: &mut [u32]) -> PartyAnswer
        ensures value { result ≡ mask_of self v.now (length out.old) }
        ensures out_after { out.new ≡ mask_out self v.now out.old }
    {
        let terms = self.check.set.terms;
        let turn = in_turn(LOADED, self);
        let refusal = base_messages::why(why_not_mask(turn, terms, v, out.len()));
        let who = self.who;
        let waiting = self.waiting;
        let mut check = self.check;
        if refusal == 0 {
            let mask = self.check.set.mask;
            write_masked(terms.n, v, &mask, out);
            let kept = masked_array(terms.n, v, &mask);
            check.phase = MASKED;
            check.masked = kept;
            check.own = share_vectors::own(terms, v);
            check.word = 0;
        }
        PartyAnswer {
            why: refusal,
            party: Party {
                who,
                last: self.last,
                check,
                waiting,
            },
            word: 0,
        }
    }

    // Call 3: takes the other box's masked vector, and answers this box's word.
    // kept: (d) label and name apart: a call of a box has one of each, and `base_messages::expected` takes both.
    pub fn take(self, label: Label, name: &[u8], v: &[u32]) -> PartyAnswer
        ensures { result ≡ take_of self label name.now v.now }
    {
        let terms = self.check.set.terms;
        let number = self.check.set.number;
        let turn = in_turn(MASKED, self);
        let lengths = (name.len() == NAME) & (v.len() == terms.n);
        let kind = base_messages::VECTOR;
        if let Err(refusal) = why_not_message(turn, lengths, kind, self.who, number, label, name) {
            return refused(refusal, self);
        }
        let share = box_share(self.who.party, &self.check, v);
        let mark = self.check.set.mark;
        let word = share_answers::word(terms, mark, share, self.check.own, self.check.set.r);
        let mut next = self;
        next.check.phase = TAKEN;
        next.check.word = word;
        PartyAnswer {
            why: 0,
            party: next,
            word,
        }
    }

    // Call 4: takes the other box's word, and answers this box's share of the yes or no.
    // kept: (d) label and name apart: a call of a box has one of each, and `base_messages::expected` takes both.
    pub fn finish(self, label: Label, name: &[u8], word: u32) -> PartyAnswer
        ensures { result ≡ finish_of self label name.now word }
    {
        let number = self.check.set.number;
        let turn = in_turn(TAKEN, self);
        let lengths = name.len() == NAME;
        let kind = base_messages::WORD;
        if let Err(refusal) = why_not_message(turn, lengths, kind, self.who, number, label, name) {
            return refused(refusal, self);
        }
        let party = self.who.party;
        let key = self.check.set.key;
        let seed = self.check.set.seed;
        let z = base_words::add(self.check.word, word);
        let answer = share_answers::answer(self.check.set.width, party, key, seed, z);
        let next = closed(self.who, self.last, self.waiting);
        PartyAnswer {
            why: 0,
            party: next,
            word: answer,
        }
    }

    // Ends the open set.
    pub fn drop(self) -> PartyAnswer
        ensures { result ≡ drop_of self }
    {
        let phase = self.check.phase;
        let sound = sound(self);
        if !((phase != IDLE) & sound) {
            return refused(Refusal::OutOfTurn, self);
        }
        PartyAnswer {
            why: 0,
            party: closed(self.who, self.last, self.waiting),
            word: 0,
        }
    }
}
