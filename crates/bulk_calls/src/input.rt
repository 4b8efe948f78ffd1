// Standard input, a byte at a time through a buffer. Assumes the contract that the kit states of C's `read`.
ghost use Rattle.std.specs.Prelude.{◌-◌, ◌≤◌};
ghost use Rattle.bulk_calls.specs.declared.input.TheConstants.{SOURCE_SIZE};

use std::io::Read;

const SOURCE_SIZE: usize = 4096;

// What is read from, the buffer that it is read into, and where the input stands.
#[derive(Drop)]
pub struct Source<R: Read> {
    reader: R,
    bytes: [u8; SOURCE_SIZE],
    // The byte after the one at hand, and the end of what was read.
    next: usize,
    end: usize,
    // The byte at hand; at the input's end a newline.
    // Kept: a newline for no byte, no `Option`: a word ends at the one as at the other.
    pub byte: u8,
    // How many bytes can still be taken, the one at hand counted: 0 at the input's end. A proved loop has to end, and nothing says that
    // the input does, so this starts at a number that no run uses up.
    pub left: u64,
    ghost in_order: { next ≤ end },
    ghost inside: { end ≤ SOURCE_SIZE },
}

impl<R: Read> Source<R> {
    // The input before its first byte.
    pub fn new(reader: R) -> Self {
        Self {
            reader,
            bytes: [0u8; SOURCE_SIZE],
            next: 0,
            end: 0,
            byte: b'\n',
            left: u64::MAX,
        }
    }

    // Whether what was read is used up.
    pub fn is_used_up(&self) -> bool {
        self.next == self.end
    }

    // The byte at hand is taken, and the next is at hand. A read that fails is the input's end.
    pub fn advance(&mut self)
        ensures { self.new.left ≤ self.old.left - 1 }
    {
        if 1 < self.left && self.next == self.end {
            self.next = 0;
            self.end = self.reader.read(&mut self.bytes).unwrap_or(0);
        }
        if self.left <= 1 || self.next == self.end {
            self.next = self.end;
            self.byte = b'\n';
            self.left = 0;
        } else {
            self.byte = self.bytes[self.next];
            self.next += 1;
            self.left -= 1;
        }
    }
}
