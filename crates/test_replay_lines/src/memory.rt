// What the lines of a script share: what the fields of a line say, what its call is handed and writes,
// and what earlier calls wrote or sent.
ghost use Rattle.std.specs.Prelude.{◌≤◌, ◌<◌, length};

use crate::command::Part;
use crate::shown;
use base_messages::NAME;
use half_content::BLOCK;
use measure_table::{MOST_ELEMENTS, Terms};

// The most bytes that a field stands for, 19 blocks.
pub const LONGEST: usize = 9728;

// The fields of a line, its command's name included.
// kept: a count, and no kind.
pub const FIELDS: usize = 13;

// The bytes of a box's state: nothing else in a buffer is longer.
const ROOM: usize = shown::BOX;

// kept: (a) a public name, as `shown` is one.
pub fn wide(n: usize) -> u64 {
    n as u64
}

// Some bytes, of which the first `len` count.
// kept: (d) an array with a length: a Vec brings an allocator and an error to all that reads or keeps a line.
#[derive(Clone, Copy)]
pub struct Buffer {
    bytes: [u8; ROOM],
    len: usize,
    ghost within: { len ≤ length bytes },
}

impl Buffer {
    pub fn new() -> Self {
        Buffer {
            bytes: test_script::zeros(),
            len: 0,
        }
    }

    pub fn of(bytes: &[u8]) -> Self {
        let mut b = Buffer::new();
        b.put(bytes);
        b
    }

    // These bytes in place of those that stand there. A Buffer by value is a copy of 17 KB.
    pub fn set(&mut self, bytes: &[u8]) {
        self.len = 0;
        self.put(bytes);
    }

    // The bytes that a field of a line says in place of those that stand there.
    pub fn read(&mut self, field: &[u8]) -> Option<()> {
        let mut room: [u8; LONGEST] = test_script::zeros();
        self.set(test_script::parse_bytes(field, &mut room)?);
        Some(())
    }

    pub fn as_slice(&self) -> &[u8] {
        &self.bytes[..self.len]
    }

    // Those bytes that there is room for go behind those that stand there.
    pub fn put(&mut self, bytes: &[u8]) {
        let end = self.len + bytes.len().min(ROOM - self.len);
        self.bytes[self.len..end].copy_from_slice(&bytes[..end - self.len]);
        self.len = end;
    }

    fn put_four(&mut self, bytes: [u8; 4]) {
        if self.len <= ROOM - 4 {
            self.bytes[self.len..self.len + 4].copy_from_slice(&bytes);
            self.len += 4;
        } else {
            self.put(&bytes);
        }
    }

    // Words, little-endian: a copy of four bytes is quicker than one of a length that is looked up.
    pub fn put_words(&mut self, words: &[u32]) {
        for w in words {
            self.put_four(w.to_le_bytes());
        }
    }

    // A vector's words, as `put_words` puts them: side by side first, which is one step for many words.
    pub fn put_vector(&mut self, words: &[u32; MOST_ELEMENTS]) {
        let mut bytes: [u8; 4 * MOST_ELEMENTS] = test_script::zeros();
        for (four, w) in bytes.as_chunks_mut::<4>().0.iter_mut().zip(words) {
            *four = w.to_le_bytes();
        }
        self.put(&bytes);
    }

    // The first n bytes, or all if there are fewer.
    pub fn first(&self, n: usize) -> &[u8] {
        &self.bytes[..n.min(self.len)]
    }

    // The first n bytes stay.
    pub fn truncate(&mut self, n: usize) {
        self.len = self.len.min(n);
    }

    // 1 is xored into byte i, if there is one.
    pub fn flip(&mut self, i: usize) {
        if i < self.len {
            self.bytes[i] ^= 1;
        }
    }

    // Whether there is a block i.
    pub fn has_block(&self, i: usize) -> bool {
        i < self.len / BLOCK
    }

    // Block j of another half over block i.
    pub fn set_block(&mut self, i: usize, other: &Buffer, j: usize)
        requires { (i < 16) × (j < 16) }
    {
        let block = &other.bytes[BLOCK * j..BLOCK * j + BLOCK];
        self.bytes[BLOCK * i..BLOCK * i + BLOCK].copy_from_slice(block);
    }
}

// What a box sent last: no words and zeros before the first.
#[derive(Clone, Copy)]
pub struct Sent {
    pub masked: Buffer,
    pub word: u32,
    pub answer: u32,
}

// The halves of a deal.
#[derive(Clone, Copy)]
pub struct Halves {
    pub camera: Buffer,
    pub office: Buffer,
}

// The halves of the last four deals, in a ring: a deal takes the place of the oldest.
#[derive(Clone, Copy)]
pub struct Deals {
    halves: [Halves; 4],
    newest: usize,
    ghost on_ring: { newest < length halves },
}

impl Deals {
    // The half that the k-th deal before the newest wrote for a box; no bytes if there is none.
    pub fn half(&self, k: usize, part: Part) -> &Buffer {
        let deal = &self.halves[(self.newest + 4 - k % 4) % 4];
        match part {
            Part::Office => &deal.office,
            _ => &deal.camera,
        }
    }

    // The first n bytes of both buffers of an accepted deal are kept.
    pub fn keep(&mut self, camera: &Buffer, office: &Buffer, n: usize) {
        self.newest = (self.newest + 1) % 4;
        self.halves[self.newest] = Halves {
            camera: Buffer::of(camera.first(n)),
            office: Buffer::of(office.first(n)),
        };
    }
}

#[derive(Clone, Copy)]
pub struct Memory {
    // The bytes of a line's fields, each in its field's place.
    pub fields: [Buffer; FIELDS],
    // What a call is handed or writes, or a state that is shown.
    pub first: Buffer,
    // The second half of a deal.
    pub second: Buffer,
    // The name and the terms that a trial tells.
    pub name: [u8; NAME],
    pub terms: Terms,
    // What the last four deals wrote.
    pub deals: Deals,
    // What the boxes sent, the camera box first.
    pub sent: [Sent; 2],
}

impl Memory {
    pub fn new() -> Self {
        let none = Buffer::new();
        let sent = Sent {
            masked: none,
            word: 0,
            answer: 0,
        };
        let halves = Halves {
            camera: none,
            office: none,
        };
        Memory {
            fields: [none; FIELDS],
            first: none,
            second: none,
            name: [0; NAME],
            terms: Terms { code: 0, n: 0 },
            deals: Deals {
                halves: [halves; 4],
                newest: 0,
            },
            sent: [sent; 2],
        }
    }

    // The bytes that a field of the line says.
    pub fn field(&self, i: usize) -> &[u8]
        requires { i < 13 }
    {
        let fields = &self.fields;
        let field = &fields[i];
        field.as_slice()
    }

    // What a box sent last, if the word names one.
    pub fn sent_by(&self, word: &[u8]) -> Option<&Sent> {
        match Part::of(word) {
            Some(Part::Camera) => Some(&self.sent[0]),
            Some(Part::Office) => Some(&self.sent[1]),
            _ => None,
        }
    }
}
