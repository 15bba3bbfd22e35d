// A script's lines, and the fields of a line.
ghost use Rattle.std.specs.Prelude.{◌-◌, length};
ghost use Rattle.std.specs.Iterator.{at_most};

use crate::parse::{
    OneOrTwo, parse_array, parse_bytes, parse_number, parse_one_or_two, parse_vector, parse_word,
};

// The lines that are left of a text. The last may have no line feed, and there is none after it.
// kept: (a) over next_line, which promises NextPart; no clause of split_inclusive says where a part lies.
#[derive(Clone, Copy)]
pub struct Lines<'a> {
    text: &'a [u8],
    from: usize,
}

impl<'a> Lines<'a> {
    pub fn new(text: &'a [u8]) -> Self {
        Lines { text, from: 0 }
    }
}

impl<'a> Iterator for Lines<'a> {
    type Item = Line<'a>;

    ghost remaining = { λ s. at_most (length s.text.now - s.from) };

    fn next(&mut self) -> Option<Line<'a>> {
        if self.from >= self.text.len() {
            return None;
        }
        let line = crate::next_line(self.text, self.from);
        self.from = line.next;
        Some(Line {
            text: &self.text[line.start..line.end],
        })
    }
}

// One space stands between two fields. Field 0 is the command's name.
#[derive(Clone, Copy)]
pub struct Line<'a> {
    pub text: &'a [u8],
}

impl<'a> Line<'a> {
    pub fn count(self) -> usize {
        crate::part_count(self.text, b' ')
    }

    // No bytes if there are fewer fields.
    pub fn field(self, n: usize) -> &'a [u8] {
        crate::part(self.text, b' ', n)
    }

    pub fn number(self, n: usize) -> Option<u64> {
        parse_number(self.field(n))
    }

    pub fn word(self, n: usize) -> Option<u32> {
        parse_word(self.field(n))
    }

    pub fn one_or_two(self, n: usize) -> Option<OneOrTwo> {
        parse_one_or_two(self.field(n))
    }

    pub fn array<const N: usize>(self, n: usize) -> Option<[u8; N]> {
        parse_array(self.field(n))
    }

    pub fn bytes<'b>(self, n: usize, out: &'b mut [u8]) -> Option<&'b mut [u8]> {
        parse_bytes(self.field(n), out)
    }

    pub fn vector<'b>(self, n: usize, out: &'b mut [u32]) -> Option<&'b mut [u32]> {
        parse_vector(self.field(n), out)
    }
}
