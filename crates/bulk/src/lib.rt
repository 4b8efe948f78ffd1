// The public calls: document 01, "The calls" and "How much the contracts must say", and document 02, §2. Each answers for every input, asks nothing of
// its caller, and assumes nothing.
#![tactic(auto)]

ghost use Rattle.std.specs.Prelude.{◌≡◌, List, [], ℕ, length};
ghost use Rattle.std.specs.Borrow.{Bor};
ghost use Rattle.spec.specs.Calls.{Read, Write, Evaluate, Item, Buffer as Chosen};
ghost use Rattle.spec.specs.Backlog.{is_23, Backlog};
ghost use Rattle.bulk.specs.Answers.{Answered, AnsweredEvaluation, AnsweredBacklog, told_numbers, asked, of_buffer, lent, PartItself};

pub use atoms::refusal::{Reason, Refusal, UnknownReason};
pub use evaluator::Evaluation;
pub use reader::Part;

// The bytes of the longest stream.
pub const STREAM_LIMIT: usize = reader::STREAM_LIMIT;

// The numbers of a row.
pub const ROW_WIDTH: usize = reader::ROW_WIDTH;

// A table with a row for every byte of the longest stream: no stream has more rows.
pub const TABLE_LIMIT: usize = ROW_WIDTH * STREAM_LIMIT;

// The bytes that count of a workspace: no result is longer.
pub const WORKSPACE_LIMIT: usize = evaluator::WORKSPACE_LIMIT;

// The numbers that a backlog gives for a stream: number, place, length and steps.
pub const ANSWER_WIDTH: usize = 4;

// Kept: `as`, where there is no `From`: the ends are within the buffer, and the numbers of an answer within 64 bits.

// Which of Item's two buffers.
#[derive(Clone, Copy, Debug, PartialEq, Eq)]
pub enum Buffer {
    Stream,
    Result,
}

// Reads a stream into a table of four numbers a row: kind, start, end, next row. Gives the number of rows. A refusal leaves the table as it was.
pub fn read(stream: &[u8], table: &mut [u32]) -> Result<usize, Refusal>
    ensures { Answered (Read stream.now table.old) result table.new [] }
{
    let rows = reader::check(stream, table.len() / ROW_WIDTH)?.rows;
    reader::fill(stream, table);
    Ok(rows)
}

// Reads a stream, then writes the canonical stream. Gives its length. A refusal leaves the output as it was.
pub fn write(stream: &[u8], table: &mut [u32], output: &mut [u8]) -> Result<usize, Refusal>
    ensures { Answered (Write stream.now table.old output.old) result table.new output.new }
{
    let length = reader::check(stream, table.len() / ROW_WIDTH)?.length;
    reader::fill(stream, table);
    if output.len() < length {
        return Err(Refusal::new(Reason::ShortOutput, 0));
    }
    // A stream that is as long as its canonical stream is that stream.
    if length == stream.len() {
        output[..stream.len()].copy_from_slice(stream);
    } else {
        writer::emit(stream, output);
    }
    Ok(length)
}

// Reads a stream and evaluates it in a workspace, with so many steps, then writes the result. Gives its length and the steps taken. A refusal leaves the output as it was; what the workspace holds afterwards is free.
pub fn evaluate(
    stream: &[u8],
    table: &mut [u32],
    workspace: &mut [u8],
    output: &mut [u8],
    steps: u64,
) -> Result<Evaluation, Refusal>
    ensures { AnsweredEvaluation (Evaluate stream.now table.old (length workspace.old) output.old steps) result table.new output.new }
{
    let rows = reader::check(stream, table.len() / ROW_WIDTH)?.rows;
    reader::fill(stream, table);
    let evaluation = evaluator::evaluate(stream, table, rows, workspace, steps)?;
    let size = evaluation.length;
    if output.len() < size {
        return Err(Refusal::new(Reason::ShortOutput, 0));
    }
    output[..size].copy_from_slice(&workspace[..size]);
    Ok(evaluation)
}

// Whether the ends are not those of streams in the buffer, or the list has too few places for their answers.
fn is_23(buffer: &[u8], ends: &[u64], answers: &[u64]) -> bool
    ensures { result ≡ is_23 buffer.now ends.now answers.now }
{
    answers.len() / ANSWER_WIDTH < ends.len()
        || !ends.is_sorted()
        || ends.last().copied().unwrap_or(0) != buffer.len() as u64
}

// What a backlog tells of a stream: number, place, length and steps.
// Kept: zeros where there is nothing to tell, as the list of answers has them, which C lends.
fn told(answer: Result<Evaluation, Refusal>) -> [u64; ANSWER_WIDTH]
    ensures { result ≡ told_numbers answer }
{
    match answer {
        Ok(evaluation) => [0, 0, evaluation.length as u64, evaluation.steps],
        Err(refusal) => [
            u64::from(u32::from(refusal.reason)),
            refusal.place as u64,
            0,
            0,
        ],
    }
}

// Evaluates streams that stand end to end in a buffer, one after another, each with the output left by those before and so many steps. Gives the
// results' length in all, and in the lent list the four numbers of each. A refused stream leaves the output to the next. If the ends don't fit the
// buffer, or the list has no place for all answers, nothing is written.
pub fn backlog(
    buffer: &[u8],
    ends: &[u64],
    table: &mut [u32],
    workspace: &mut [u8],
    output: &mut [u8],
    steps: u64,
    answers: &mut [u64],
) -> Result<usize, Refusal>
    ensures { AnsweredBacklog (Backlog buffer.now ends.now table.old (length workspace.old) output.old steps answers.old) result table.new output.new answers.new }
{
    if is_23(buffer, ends, answers) {
        return Err(Refusal::new(Reason::WrongEnds, 0));
    }
    let mut start: usize = 0;
    let mut used: usize = 0;
    for (i, end) in ends.iter().enumerate() {
        let end = *end as usize;
        let answer = evaluate(
            &buffer[start..end],
            table,
            workspace,
            &mut output[used..],
            steps,
        );
        let at = ANSWER_WIDTH * i;
        answers[at..at + ANSWER_WIDTH].copy_from_slice(&told(answer));
        if let Ok(evaluation) = answer {
            used += evaluation.length;
        }
        start = end;
    }
    Ok(used)
}

// Item k of a buffer.
fn item_of<'a>(buffer: &'a [u8], k: usize) -> &'a [u8]
    ensures { (b : Chosen) (stream res : Bor (List ℕ)) → lent b stream res ≡ buffer.entry → PartItself (Item stream.now res.now b k) stream res result }
{
    match reader::locate(buffer, k) {
        Some(part) => &buffer[part.start..part.end],
        None => &buffer[..0],
    }
}

// Top-level expression k of the stream or of the result, counted from 0, as the part itself. It is empty if that buffer can't be read or has no such expression.
pub fn item<'a>(stream: &'a [u8], res: &'a [u8], which: Buffer, k: usize) -> &'a [u8]
    ensures { PartItself (Item stream.now res.now (asked which) k) stream.entry res.entry result }
{
    match which {
        Buffer::Stream => item_of(stream, k),
        Buffer::Result => item_of(res, k),
    }
}

// Where in its buffer the part is that `item` gives.
// Kept: a match of its own beside `item`'s, since the edits `item_other_buffer` and `item_part_other_buffer` exchange the buffers in each.
pub fn item_part(stream: &[u8], res: &[u8], which: Buffer, k: usize) -> Option<Part>
    ensures { of_buffer (asked which) result ≡ Item stream.now res.now (asked which) k }
{
    match which {
        Buffer::Stream => reader::locate(stream, k),
        Buffer::Result => reader::locate(res, k),
    }
}
