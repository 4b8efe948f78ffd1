#![tactic(auto)]

// The calls as functions that C and Rust can call, for the benchmark (`bench/`) and the runs on a small stack (`stack/`): each gives document 01's rows
// or length, which is 0 on a refusal, and leaves table and output as document 01 says. An item gives its part's length, which is 0 if there is none. A
// backlog, of document 02, §2, gives the results' length in all, and the list of answers.
ghost use Rattle.std.specs.Prelude.{◌≡◌, [], length};
ghost use Rattle.spec.specs.Calls.{Read, Write, Evaluate, Item};
ghost use Rattle.spec.specs.Backlog.{Backlog};
ghost use Rattle.bulk.specs.Answers.{asked};
ghost use Rattle.bulk_bench.specs.Given.{given, result as given_result, size, which, Gives, GivesBacklog};

use bulk::{Buffer, Evaluation, Refusal};

// What Read, Write or Backlog gives.
// Kept: 0 for a refusal, since C is given a number.
fn given(answer: Result<usize, Refusal>) -> usize
    ensures { result ≡ given answer }
{
    answer.unwrap_or(0)
}

// What Evaluate gives.
fn result(answer: Result<Evaluation, Refusal>) -> usize
    ensures { result ≡ given_result answer }
{
    given(answer.map(|evaluation| evaluation.length))
}

#[unsafe(no_mangle)]
pub extern "C" fn bulk_bench_read(stream: &[u8], table: &mut [u32]) -> usize
    ensures { Gives (Read stream.now table.old) result table.new [] }
{
    given(bulk::read(stream, table))
}

#[unsafe(no_mangle)]
pub extern "C" fn bulk_bench_write(stream: &[u8], table: &mut [u32], output: &mut [u8]) -> usize
    ensures { Gives (Write stream.now table.old output.old) result table.new output.new }
{
    given(bulk::write(stream, table, output))
}

#[unsafe(no_mangle)]
pub extern "C" fn bulk_bench_evaluate(
    stream: &[u8],
    table: &mut [u32],
    workspace: &mut [u8],
    output: &mut [u8],
    steps: u64,
) -> usize
    ensures { Gives (Evaluate stream.now table.old (length workspace.old) output.old steps) result table.new output.new }
{
    result(bulk::evaluate(stream, table, workspace, output, steps))
}

#[unsafe(no_mangle)]
pub extern "C" fn bulk_bench_backlog(
    buffer: &[u8],
    ends: &[u64],
    table: &mut [u32],
    workspace: &mut [u8],
    output: &mut [u8],
    steps: u64,
    answers: &mut [u64],
) -> usize
    ensures { GivesBacklog (Backlog buffer.now ends.now table.old (length workspace.old) output.old steps answers.old) result table.new output.new answers.new }
{
    given(bulk::backlog(buffer, ends, table, workspace, output, steps, answers))
}

// Which of Item's two buffers.
// Kept: no `From<bool>`. C gives a bool, which in `bulk` would say nothing.
fn which(of_result: bool) -> Buffer
    ensures { asked result ≡ which of_result }
{
    if of_result {
        return Buffer::Result;
    }
    Buffer::Stream
}

#[unsafe(no_mangle)]
pub extern "C" fn bulk_bench_item<'a>(
    stream: &'a [u8],
    res: &'a [u8],
    of_result: bool,
    k: usize,
) -> usize
    ensures { result ≡ size (Item stream.now res.now (which of_result) k) }
{
    bulk::item(stream, res, which(of_result), k).len()
}
