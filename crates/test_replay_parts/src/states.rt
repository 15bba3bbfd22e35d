// The states before the first start, and the bytes of a state, whose tag answers `show`
// (docs/REPLAY.md): its fields, one behind the other.
use base_messages::{Identity, KEY, NAME};
use call_dealer::Dealer;
use call_lock::Lock;
use call_party::{Check, Party};
use half_content::Set;
use measure_table::MOST_ELEMENTS;
use test_replay_lines::memory;
use test_replay_lines::memory::Buffer;

pub fn no_dealer() -> Dealer {
    Dealer {
        name: [0; NAME],
        key0: [0; KEY],
        key1: [0; KEY],
        last: 0,
    }
}

pub fn no_party() -> Party {
    let who = Identity {
        name: [0; NAME],
        party: 0,
        key: [0; KEY],
    };
    let check = Check {
        phase: call_party::IDLE,
        set: half_content::no_set(),
        masked: [0; MOST_ELEMENTS],
        own: 0,
        word: 0,
    };
    Party {
        who,
        last: 0,
        check,
        waiting: half_content::no_set(),
    }
}

pub fn no_lock() -> Lock {
    Lock {
        name: [0; NAME],
        last: 0,
    }
}

// kept: (d) one line by `to_le_bytes`, under a name since it stands four times.
fn put_number(b: &mut Buffer, n: u64) {
    b.put(&n.to_le_bytes());
}

// kept: (d) a state's bytes, field by field in their order: a derive would not say the order.
// A set, open or waiting.
fn put_set(b: &mut Buffer, s: Set) {
    put_number(b, s.number);
    b.put_words(&[s.terms.code]);
    put_number(b, memory::wide(s.terms.n));
    b.put_vector(&s.mask);
    b.put_vector(&s.x);
    b.put_vector(&s.y);
    b.put_words(&[s.c, s.r]);
    b.put_words(&s.seed);
    for correction in s.key.corrections {
        b.put_words(&correction.seed);
        b.put_words(&[correction.word, correction.flags]);
    }
    b.put_words(&[s.key.last, s.width, s.mark]);
}

// kept: (d) as `put_set`, here and below.
// Into a buffer that is lent: one by value is a copy of 17 KB.
pub fn put_party(b: &mut Buffer, p: Party) {
    b.set(&p.who.name);
    b.put_words(&[p.who.party]);
    b.put(&p.who.key);
    put_number(b, p.last);
    b.put_words(&[p.check.phase]);
    put_set(b, p.check.set);
    b.put_vector(&p.check.masked);
    b.put_words(&[p.check.own, p.check.word]);
    put_set(b, p.waiting);
}

// kept: (d) as `put_set`.
pub fn put_dealer(b: &mut Buffer, d: Dealer) {
    b.set(&d.name);
    b.put(&d.key0);
    b.put(&d.key1);
    put_number(b, d.last);
}

// kept: (d) as `put_set`.
pub fn put_lock(b: &mut Buffer, l: Lock) {
    b.set(&l.name);
    put_number(b, l.last);
}
