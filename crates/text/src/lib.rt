#![tactic(auto)]

// Text for standard output; numbers that were written; and standard input whole. What a write that fails leaves out is lost, and a read that fails is
// the input's end. Assumes the contracts that the kit states of C's `read` and `write`.
ghost use Rattle.std.specs.Prelude.{◌≤◌, ◌<◌, length};
ghost use Rattle.text.specs.Size.{buffer_size};

use std::fmt;
use std::io::Read;

const BUFFER_SIZE: usize = 4096;

// Text is gathered in a buffer, so that a call of the system writes much of it. `used` is how many of its bytes are in use.
#[derive(Drop)]
pub struct Text<'a, P: Print> {
    rt: &'a P,
    buffer: [u8; BUFFER_SIZE],
    used: usize,
    ghost inside: { used ≤ buffer_size },
}

impl<'a, P: Print> Text<'a, P> {
    pub fn new(rt: &'a P) -> Self {
        Self {
            rt,
            buffer: [0u8; BUFFER_SIZE],
            used: 0,
        }
    }

    // Adds a byte. If the buffer is full, it is written out first.
    pub fn byte(&mut self, b: u8) {
        if self.used < BUFFER_SIZE {
            self.buffer[self.used] = b;
            self.used += 1;
        } else {
            self.flush();
            self.buffer[0] = b;
            self.used = 1;
        }
    }

    // Writes out what the buffer holds.
    pub fn flush(&mut self) {
        let _ = self.rt.write_all(&self.buffer[..self.used]);
        self.used = 0;
    }

    pub fn bytes(&mut self, s: &[u8]) {
        for b in s {
            self.byte(*b);
        }
    }

    pub fn decimal(&mut self, n: u64) {
        let mut digits = itoa::Buffer::new();
        self.bytes(digits.format(n).as_bytes());
    }

    // Numbers with a space between them, and a line's end behind every `width` of them.
    pub fn numbers(&mut self, numbers: &[u32], width: usize)
        requires { 0 < width }
    {
        for (i, n) in numbers.iter().enumerate() {
            self.decimal(u64::from(*n));
            self.byte(if (i + 1) % width == 0 { b'\n' } else { b' ' });
        }
    }
}

impl<'a, P: Print> fmt::Write for Text<'a, P> {
    fn write_str(&mut self, s: &str) -> fmt::Result {
        self.bytes(s.as_bytes());
        Ok(())
    }
}

// A decimal number that was written, with one digit more; above 64 bits, the largest.
pub fn with_digit(value: u64, digit: u8) -> u64 {
    value.saturating_mul(10).saturating_add(u64::from(digit))
}

// As many elements of a buffer as were asked for; all if it has fewer.
pub fn within(count: u64, size: usize) -> usize
    ensures { result ≤ size }
{
    usize::try_from(count).unwrap_or(size).min(size)
}

// Reads until the bytes are full, the input ends or a read fails. Gives how many were read.
pub fn read_full(reader: &mut impl Read, bytes: &mut [u8]) -> usize
    ensures { result ≤ length bytes.new }
{
    let mut done: usize = 0;
    while done < bytes.len() {
        match reader.read(&mut bytes[done..]) {
            Ok(0) | Err(_) => break,
            Ok(n) => done += n,
        }
    }
    done
}
