// What an answer prints. Assumes the contract that the kit states of C's `write`.
ghost use Rattle.std.specs.Prelude.{◌*◌, ◌≤◌, length};
ghost use Rattle.spec.specs.Reading.{row_width};

use bulk::{Evaluation, Refusal};
use std::fmt::Write;
use text::Text;

// The bytes that were written in hexadecimal, and the line's end.
fn result<P: Print>(out: &mut Text<'_, P>, bytes: &[u8]) {
    out.byte(b' ');
    if bytes.is_empty() {
        out.byte(b'-');
    }
    for b in bytes {
        out.byte(DIGITS[usize::from(*b / 16)]);
        out.byte(DIGITS[usize::from(*b % 16)]);
    }
    out.byte(b'\n');
}

const DIGITS: [u8; 16] = *b"0123456789abcdef";

pub fn rows<P: Print>(out: &mut Text<'_, P>, table: &[u32], rows: usize)
    requires { row_width * rows ≤ length table.now }
{
    let _ = write!(out, "ok {rows}");
    if rows == 0 {
        out.byte(b'\n');
        return;
    }
    out.byte(b' ');
    let end = bulk::ROW_WIDTH * rows;
    out.numbers(&table[..end], end);
}

pub fn written<P: Print>(out: &mut Text<'_, P>, bytes: &[u8]) {
    let _ = write!(out, "ok {}", bytes.len());
    result(out, bytes);
}

pub fn evaluated<P: Print>(out: &mut Text<'_, P>, evaluation: Evaluation, bytes: &[u8]) {
    let Evaluation { length, steps } = evaluation;
    let _ = write!(out, "ok {length} {steps}");
    result(out, bytes);
}

pub fn backlog<P: Print>(out: &mut Text<'_, P>, told: &[u64], bytes: &[u8]) {
    out.bytes(b"ok");
    for number in told {
        out.byte(b' ');
        out.decimal(*number);
    }
    result(out, bytes);
}

// The call can't be made with what the program can lend.
pub fn too_long<P: Print>(out: &mut Text<'_, P>) {
    out.bytes(b"too long\n");
}

pub fn part<P: Print>(out: &mut Text<'_, P>, start: usize, end: usize) {
    let _ = writeln!(out, "part {start} {end}");
}

pub fn no_part<P: Print>(out: &mut Text<'_, P>) {
    out.bytes(b"part empty\n");
}

pub fn refused<P: Print>(out: &mut Text<'_, P>, refusal: Refusal) {
    let _ = writeln!(out, "{refusal}");
}
