// The words of a request. Each function takes its word and leaves the byte behind it at hand, or gives none where the word is not there; nothing goes
// past a line's end. Assumes the contract that the kit states of C's `read`.
ghost use Rattle.std.specs.Prelude.{◌≤◌, ◌<◌, IfSome};

use crate::input::Source;
use bulk::Buffer;
use std::io::Read;

// Kept: that `left` does not rise stands in each contract, since an invariant speaks of one state, and this of two.
// Kept: what is kept has a number beside it, since memory is fixed; `as`, where there is no `From`.

// How many bytes of a word are kept: as many as three of the longest streams have. A stream of which others were dropped is still too long.
pub const KEPT_SIZE: usize = 3 * bulk::STREAM_LIMIT;

pub type Kept = [u8; KEPT_SIZE];

// How many ends are kept.
pub const ENDS_SIZE: usize = 2048;

pub type Ends = [u64; ENDS_SIZE];

// A longer name is that of no request.
pub const NAME_SIZE: usize = 8;

// The name at the line's start. Gives how many letters it has; the first `NAME_SIZE` are kept.
pub fn name(source: &mut Source<impl Read>, kept: &mut [u8; NAME_SIZE]) -> u64
    ensures { source.new.left ≤ source.old.left }
{
    let mut count: u64 = 0;
    while 0 < source.left && source.byte.is_ascii_lowercase() {
        keep(kept, count, source.byte);
        count += 1;
        source.advance();
    }
    count
}

// Keeps element n of a word, if there is a place for it.
fn keep<T: Copy>(kept: &mut [T], n: u64, element: T) {
    if n < kept.len() as u64 {
        kept[n as usize] = element;
    }
}

// The space in front of a word.
fn space(source: &mut Source<impl Read>) -> Option<()>
    ensures { source.new.left ≤ source.old.left }
{
    if source.byte != b' ' {
        return None;
    }
    source.advance();
    Some(())
}

// Whether the line ends here. The rest of a line that goes on is passed over.
pub fn line_end(source: &mut Source<impl Read>) -> bool
    ensures { source.new.left ≤ source.old.left }
{
    let ends = source.byte == b'\n';
    while 0 < source.left && source.byte != b'\n' {
        source.advance();
    }
    ends
}

// The digits of a decimal number.
fn decimal(source: &mut Source<impl Read>) -> Option<u64>
    ensures { source.new.left ≤ source.old.left }
{
    let mut value: Option<u64> = None;
    while 0 < source.left && source.byte.is_ascii_digit() {
        value = Some(text::with_digit(value.unwrap_or(0), source.byte - b'0'));
        source.advance();
    }
    value
}

// A decimal number.
pub fn number(source: &mut Source<impl Read>) -> Option<u64>
    ensures { source.new.left ≤ source.old.left }
{
    space(source)?;
    decimal(source)
}

// The `-` that stands for nothing.
fn nothing(source: &mut Source<impl Read>) -> bool
    ensures { source.new.left ≤ source.old.left }
{
    if source.byte != b'-' {
        return false;
    }
    source.advance();
    true
}

// Decimal numbers parted by commas, or `-` for none. Gives how many there are; the first `ENDS_SIZE` are kept.
pub fn ends(source: &mut Source<impl Read>, kept: &mut Ends) -> Option<u64>
    ensures { source.new.left ≤ source.old.left }
{
    space(source)?;
    if nothing(source) {
        return Some(0);
    }
    let mut count: u64 = 0;
    while 0 < source.left {
        let end = decimal(source)?;
        keep(kept, count, end);
        count += 1;
        if source.byte != b',' {
            break;
        }
        source.advance();
    }
    Some(count)
}

// `0` or `1`: which of Item's two buffers.
pub fn buffer(source: &mut Source<impl Read>) -> Option<Buffer>
    ensures { source.new.left ≤ source.old.left }
{
    space(source)?;
    let which = match source.byte {
        b'0' => Buffer::Stream,
        b'1' => Buffer::Result,
        _ => return None,
    };
    source.advance();
    Some(which)
}

// A hexadecimal digit's value.
fn hex_digit(b: u8) -> Option<u8>
    ensures { IfSome result (λ n. n < 16) }
{
    match b {
        b'0'..=b'9' => Some(b - b'0'),
        b'a'..=b'f' => Some(b - b'a' + 10),
        _ => None,
    }
}

// Bytes in hexadecimal, or `-` for none. Gives how many there are; the first `KEPT_SIZE` are kept.
pub fn hex(source: &mut Source<impl Read>, kept: &mut Kept) -> Option<u64>
    ensures { source.new.left ≤ source.old.left }
{
    space(source)?;
    if nothing(source) {
        return Some(0);
    }
    let mut count: u64 = 0;
    while 0 < source.left {
        let Some(high) = hex_digit(source.byte) else {
            break;
        };
        source.advance();
        let low = hex_digit(source.byte)?;
        source.advance();
        keep(kept, count, high * 16 + low);
        count += 1;
    }
    if count == 0 {
        return None;
    }
    Some(count)
}
