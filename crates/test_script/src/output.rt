// Standard output by way of a buffer, which is written out when it is full. A write that fails loses
// its bytes: whoever compares the output sees that.
// kept: (d) std::io's writer and write! ask for the runtime, an allocator, a type with Display for hex and
// for words, and a Result at every put: here none can fail.
ghost use Rattle.std.specs.Prelude.{◌≤◌, length};

// The bytes that wait to be written out, at most.
pub const ROOM: usize = 4096;

// The answers that are not yet written out stand in the first bytes.
#[derive(Drop)]
pub struct Output {
    text: [u8; ROOM],
    len: usize,
    ghost within: { len ≤ length text },
}

impl Output {
    pub fn new() -> Self {
        Output {
            text: crate::zeros(),
            len: 0,
        }
    }

    // Writes out what is left: the last call of a program.
    pub fn flush(&mut self) {
        io::write_all(1, &self.text[..self.len]);
        self.len = 0;
    }

    pub fn put_byte(&mut self, b: u8) {
        if self.len == ROOM {
            io::write_all(1, &self.text);
            self.len = 0;
        }
        self.text[self.len] = b;
        self.len += 1;
    }

    pub fn put_text(&mut self, text: &[u8]) {
        for b in text {
            self.put_byte(*b);
        }
    }

    // The bytes as hex, - if there are none.
    pub fn put_hex(&mut self, bytes: &[u8]) {
        if bytes.is_empty() {
            self.put_byte(b'-');
        }
        for b in bytes {
            let mut digits = [0u8; 16];
            let n = io::hex(u64::from(*b), 2, &mut digits);
            self.put_text(&digits[..n]);
        }
    }

    pub fn put_number(&mut self, n: u64) {
        let mut digits = [0u8; 20];
        let k = io::decimal(n, &mut digits);
        self.put_text(&digits[..k]);
    }

    // The numbers with a space between two.
    pub fn put_numbers(&mut self, w: &[u32]) {
        for (i, x) in w.iter().enumerate() {
            if 0 < i {
                self.put_byte(b' ');
            }
            self.put_number(u64::from(*x));
        }
    }

    // The bytes of the words, little-endian, as put_hex: - if there are none.
    pub fn put_words(&mut self, w: &[u32]) {
        if w.is_empty() {
            self.put_byte(b'-');
        }
        for x in w {
            self.put_hex(&x.to_le_bytes());
        }
    }
}
