// The requests, one a line: a name and its words, parted by single spaces. Assumes the contract that the kit states of C's `read`.
ghost use Rattle.std.specs.Prelude.{◌≤◌};

use crate::input::Source;
use crate::words;
use crate::words::{ENDS_SIZE, Ends, KEPT_SIZE, Kept, NAME_SIZE};
use bulk::Buffer;
use std::io::Read;

// Kept: that `left` does not rise stands in each contract, as in `words`; `as`, where there is no `From`.

// `stream`, `result`, `buffer` and `ends` are how many bytes or ends were written; other numbers are as written, or the largest of 64 bits.
#[derive(Clone, Copy)]
pub struct ReadRequest {
    pub stream: u64,
    pub table: u64,
}

#[derive(Clone, Copy)]
pub struct WriteRequest {
    pub stream: u64,
    pub table: u64,
    pub output: u64,
}

// What every evaluation is lent.
#[derive(Clone, Copy)]
pub struct Bounds {
    pub table: u64,
    pub workspace: u64,
    pub output: u64,
    pub steps: u64,
}

#[derive(Clone, Copy)]
pub struct EvaluateRequest {
    pub stream: u64,
    pub bounds: Bounds,
}

#[derive(Clone, Copy)]
pub struct BacklogRequest {
    pub buffer: u64,
    pub ends: u64,
    pub bounds: Bounds,
    pub answers: u64,
}

#[derive(Clone, Copy)]
pub struct ItemRequest {
    pub stream: u64,
    pub result: u64,
    pub which: Buffer,
    pub k: u64,
}

#[derive(Clone, Copy)]
pub enum Request {
    Read(ReadRequest),
    Write(WriteRequest),
    Evaluate(EvaluateRequest),
    Backlog(BacklogRequest),
    Item(ItemRequest),
    // A backlog that was not kept whole.
    TooLong,
    Bad,
}

fn lending(source: &mut Source<impl Read>) -> Option<Bounds>
    ensures { source.new.left ≤ source.old.left }
{
    Some(Bounds {
        table: words::number(source)?,
        workspace: words::number(source)?,
        output: words::number(source)?,
        steps: words::number(source)?,
    })
}

fn read(source: &mut Source<impl Read>, stream: &mut Kept) -> Option<Request>
    ensures { source.new.left ≤ source.old.left }
{
    Some(Request::Read(ReadRequest {
        stream: words::hex(source, stream)?,
        table: words::number(source)?,
    }))
}

fn write(source: &mut Source<impl Read>, stream: &mut Kept) -> Option<Request>
    ensures { source.new.left ≤ source.old.left }
{
    Some(Request::Write(WriteRequest {
        stream: words::hex(source, stream)?,
        table: words::number(source)?,
        output: words::number(source)?,
    }))
}

fn evaluate(source: &mut Source<impl Read>, stream: &mut Kept) -> Option<Request>
    ensures { source.new.left ≤ source.old.left }
{
    Some(Request::Evaluate(EvaluateRequest {
        stream: words::hex(source, stream)?,
        bounds: lending(source)?,
    }))
}

fn backlog(source: &mut Source<impl Read>, stream: &mut Kept, ends: &mut Ends) -> Option<Request>
    ensures { source.new.left ≤ source.old.left }
{
    let bytes = words::hex(source, stream)?;
    let numbers = words::ends(source, ends)?;
    let bounds = lending(source)?;
    let answers = words::number(source)?;
    // All of it has to be kept.
    if (KEPT_SIZE as u64) < bytes || (ENDS_SIZE as u64) < numbers {
        return Some(Request::TooLong);
    }
    Some(Request::Backlog(BacklogRequest {
        buffer: bytes,
        ends: numbers,
        bounds,
        answers,
    }))
}

fn item(source: &mut Source<impl Read>, stream: &mut Kept, res: &mut Kept) -> Option<Request>
    ensures { source.new.left ≤ source.old.left }
{
    Some(Request::Item(ItemRequest {
        stream: words::hex(source, stream)?,
        result: words::hex(source, res)?,
        which: words::buffer(source)?,
        k: words::number(source)?,
    }))
}

// The request that begins with the byte at hand, up to its last word.
fn asked(
    source: &mut Source<impl Read>,
    stream: &mut Kept,
    ends: &mut Ends,
    res: &mut Kept,
) -> Option<Request>
    ensures { source.new.left ≤ source.old.left }
{
    let mut letters = [0u8; NAME_SIZE];
    let count = words::name(source, &mut letters);
    if (NAME_SIZE as u64) < count {
        return None;
    }
    match &letters[..count as usize] {
        b"read" => read(source, stream),
        b"write" => write(source, stream),
        b"evaluate" => evaluate(source, stream),
        b"backlog" => backlog(source, stream, ends),
        b"item" => item(source, stream, res),
        _ => None,
    }
}

// The line that begins with the byte at hand.
pub fn next(
    source: &mut Source<impl Read>,
    stream: &mut Kept,
    ends: &mut Ends,
    res: &mut Kept,
) -> Request
    ensures { source.new.left ≤ source.old.left }
{
    let request = asked(source, stream, ends, res);
    if words::line_end(source) {
        request.unwrap_or(Request::Bad)
    } else {
        Request::Bad
    }
}
