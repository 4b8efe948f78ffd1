#![tactic(auto)]

// Lists the rows of the stream on standard input, or prints its refusal: document 01, "The listing program".
// Assumes the contracts that the kit states of C's `read` and `write`.
ghost use Rattle.std.specs.Prelude.{◌*◌, ◌≤◌, length};
ghost use Rattle.spec.specs.Reading.{row_width};

use std::fmt::Write;
use text::Text;

// How many rows the table has.
const ROWS: usize = 4096;

// How many rows there are, and a line for each.
fn print_table<P: Print>(out: &mut Text<'_, P>, table: &[u32], rows: usize)
    requires { row_width * rows ≤ length table.now }
{
    let _ = writeln!(out, "rows {rows}");
    out.numbers(&table[..bulk::ROW_WIDTH * rows], bulk::ROW_WIDTH);
}

fn list<P: Print>(out: &mut Text<'_, P>, stream: &[u8], table: &mut [u32]) {
    match bulk::read(stream, table) {
        Err(refusal) => {
            let _ = writeln!(out, "{refusal}");
        }
        Ok(rows) => print_table(out, table, rows),
    }
}

fn main(rt: HostRuntime) {
    // A byte more than a stream may have, so that one that is too long is seen to be.
    let mut stream = [0u8; bulk::STREAM_LIMIT + 1];
    let mut table = [0u32; bulk::ROW_WIDTH * ROWS];
    let length = text::read_full(&mut rt.stdin(), &mut stream);
    let mut out = Text::new(&rt);
    list(&mut out, &stream[..length], &mut table);
    out.flush();
}
