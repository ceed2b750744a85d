// A line of text that is put together in a lent buffer before it is written.
ghost use Rattle.std.specs.Prelude.{◌≡◌, ◌≤◌, length, take};

use std::fmt;
use std::fmt::Write;

const DIGITS: [u8; 16] = *b"0123456789abcdef";

// What finds no room is left out.
#[derive(Drop)]
pub struct Line<'a> {
    pub bytes: &'a mut [u8],
    pub len: usize,
    ghost inside: { len ≤ length bytes.now },
}

impl<'a> Line<'a> {
    pub fn new(bytes: &'a mut [u8]) -> Line<'a>
        ensures { result.len ≡ 0 }
    {
        Line { bytes, len: 0 }
    }

    pub fn clear(&mut self)
        ensures { self.new.len ≡ 0 }
    {
        self.len = 0;
    }

    pub fn as_bytes(&self) -> &[u8]
        ensures { result.now ≡ take self.now.len self.now.bytes.now }
    {
        &self.bytes[..self.len]
    }

    fn push(&mut self, b: u8) {
        if self.len < self.bytes.len() {
            self.bytes[self.len] = b;
            self.len += 1;
        }
    }

    // A byte in lower-case hex. No `write!`: a save has some 18,000 bytes, and a formatter for each of them is most of what the call takes.
    pub(crate) fn push_hex(&mut self, b: u8) {
        self.push(DIGITS[usize::from(b / 16)]);
        self.push(DIGITS[usize::from(b % 16)]);
    }
}

impl Write for Line<'_> {
    fn write_str(&mut self, s: &str) -> fmt::Result {
        for b in s.as_bytes() {
            self.push(*b);
        }
        Ok(())
    }
}
