// The calls that requests ask for. Assumes the contract that the kit states of C's `write`.
use crate::answers;
use crate::requests::{
    BacklogRequest, EvaluateRequest, ItemRequest, ReadRequest, Request, WriteRequest,
};
use crate::words::{ENDS_SIZE, Ends, KEPT_SIZE, Kept};
use bulk::Reason;
use text::{Text, within};

// One byte more than counts of a workspace, so that one in which not all counts can be asked for.
const WORKSPACE_SIZE: usize = bulk::WORKSPACE_LIMIT + 1;

// A place for each number that the ends that are kept can ask for: more would change no answer.
const ANSWERS_SIZE: usize = bulk::ANSWER_WIDTH * ENDS_SIZE;

// Kept: `as`, where there is no `From`.

// What the calls are lent.
#[derive(Drop)]
pub struct Lent {
    pub stream: Kept,
    pub ends: Ends,
    table: [u32; bulk::TABLE_LIMIT],
    workspace: [u8; WORKSPACE_SIZE],
    // More would change no answer but a backlog's: no canonical stream is longer than its stream, and no result than what counts of a workspace.
    // The second buffer of an item is kept here too.
    pub output: Kept,
    answers: [u64; ANSWERS_SIZE],
}

impl Lent {
    pub fn new() -> Self {
        Self {
            stream: [0u8; KEPT_SIZE],
            ends: [0u64; ENDS_SIZE],
            table: [0u32; bulk::TABLE_LIMIT],
            workspace: [0u8; WORKSPACE_SIZE],
            output: [0u8; KEPT_SIZE],
            answers: [0u64; ANSWERS_SIZE],
        }
    }
}

// As many of what can be lent as were asked for; all if there are fewer.
fn first<T>(items: &mut [T], count: u64) -> &mut [T] {
    let size = within(count, items.len());
    &mut items[..size]
}

fn read<P: Print>(out: &mut Text<'_, P>, asked: ReadRequest, lent: &mut Lent) {
    let table = first(&mut lent.table, asked.table);
    match bulk::read(first(&mut lent.stream, asked.stream), table) {
        Err(refusal) => answers::refused(out, refusal),
        Ok(rows) => answers::rows(out, table, rows),
    }
}

fn write<P: Print>(out: &mut Text<'_, P>, asked: WriteRequest, lent: &mut Lent) {
    let output = first(&mut lent.output, asked.output);
    match bulk::write(
        first(&mut lent.stream, asked.stream),
        first(&mut lent.table, asked.table),
        output,
    ) {
        Err(refusal) => answers::refused(out, refusal),
        Ok(written) => answers::written(out, &output[..written]),
    }
}

fn evaluate<P: Print>(out: &mut Text<'_, P>, asked: EvaluateRequest, lent: &mut Lent) {
    let bounds = asked.bounds;
    let output = first(&mut lent.output, bounds.output);
    match bulk::evaluate(
        first(&mut lent.stream, asked.stream),
        first(&mut lent.table, bounds.table),
        first(&mut lent.workspace, bounds.workspace),
        output,
        bounds.steps,
    ) {
        Err(refusal) => answers::refused(out, refusal),
        Ok(evaluation) => {
            answers::evaluated(out, evaluation, &output[..evaluation.length]);
        }
    }
}

// Whether a stream was refused for want of output.
fn lacks_output(told: &[u64]) -> bool {
    let number = u64::from(u32::from(Reason::ShortOutput));
    told.chunks(bulk::ANSWER_WIDTH)
        .any(|numbers| numbers.first() == Some(&number))
}

fn backlog<P: Print>(out: &mut Text<'_, P>, asked: BacklogRequest, lent: &mut Lent) {
    let bounds = asked.bounds;
    let ends = first(&mut lent.ends, asked.ends);
    let output = first(&mut lent.output, bounds.output);
    let answers = first(&mut lent.answers, asked.answers);
    match bulk::backlog(
        first(&mut lent.stream, asked.buffer),
        ends,
        first(&mut lent.table, bounds.table),
        first(&mut lent.workspace, bounds.workspace),
        output,
        bounds.steps,
        answers,
    ) {
        Err(refusal) => answers::refused(out, refusal),
        Ok(written) => {
            let told = &answers[..bulk::ANSWER_WIDTH * ends.len()];
            // If a stream lacked output, and more was asked for than can be lent, the call that was asked for might have told otherwise.
            if (output.len() as u64) < bounds.output && lacks_output(told) {
                answers::too_long(out);
            } else {
                answers::backlog(out, told, &output[..written]);
            }
        }
    }
}

fn item<P: Print>(out: &mut Text<'_, P>, asked: ItemRequest, lent: &mut Lent) {
    let stream = first(&mut lent.stream, asked.stream);
    let result = first(&mut lent.output, asked.result);
    let k = asked.k as usize;
    let part = bulk::item(stream, result, asked.which, k);
    match bulk::item_part(stream, result, asked.which, k) {
        None => answers::no_part(out),
        Some(place) => answers::part(out, place.start, place.start + part.len()),
    }
}

pub fn answer<P: Print>(out: &mut Text<'_, P>, request: Request, lent: &mut Lent) {
    match request {
        Request::Read(asked) => read(out, asked, lent),
        Request::Write(asked) => write(out, asked, lent),
        Request::Evaluate(asked) => evaluate(out, asked, lent),
        Request::Backlog(asked) => backlog(out, asked, lent),
        Request::Item(asked) => item(out, asked, lent),
        Request::TooLong => answers::too_long(out),
        Request::Bad => out.bytes(b"bad request\n"),
    }
}
