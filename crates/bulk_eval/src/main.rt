#![tactic(auto)]

// Evaluates the stream on standard input and writes the result to standard output, or prints its refusal: bulk_eval [STEPS [WORKSPACE]].
// Assumes the contracts that the kit states of C's `read` and `write`.
mod arguments;

use crate::arguments::Bounds;

// With so many steps and bytes of workspace; all of it if it has fewer.
fn evaluate(
    rt: &impl Print,
    stream: &[u8],
    table: &mut [u32],
    workspace: &mut [u8],
    output: &mut [u8],
    bounds: Bounds,
) {
    let size = text::within(bounds.workspace, workspace.len());
    let answer = bulk::evaluate(stream, table, &mut workspace[..size], output, bounds.steps);
    let _ = match answer {
        Err(refusal) => println!(rt; "{refusal}"),
        Ok(evaluation) => rt.write_all(&output[..evaluation.length]),
    };
}

fn run(rt: HostRuntime, bounds: Bounds) {
    // A byte more than a stream may have, so that one that is too long is seen to be.
    let mut stream = [0u8; bulk::STREAM_LIMIT + 1];
    let mut table = [0u32; bulk::TABLE_LIMIT];
    let mut workspace = [0u8; bulk::WORKSPACE_LIMIT];
    let mut output = [0u8; bulk::WORKSPACE_LIMIT];
    let length = text::read_full(&mut rt.stdin(), &mut stream);
    evaluate(
        &rt,
        &stream[..length],
        &mut table,
        &mut workspace,
        &mut output,
        bounds,
    );
}

fn main(rt: HostRuntime) {
    match arguments::read(&rt) {
        Some(bounds) => run(rt, bounds),
        None => {
            let _ = println!(rt; "usage: bulk_eval [STEPS [WORKSPACE]]");
        }
    }
}
