// The evaluator: a stream whose rows are in a table, evaluated in a workspace. Document 01: "Evaluate", refusals 9 and 10.
#![tactic(auto)]

mod element;
mod run;

ghost use Rattle.std.specs.Prelude.{◌≡◌, List, true, ℕ, ◌*◌, ◌≤◌, ◌<◌, length, take};
ghost use Rattle.spec.specs.Expr.{when◌then◌else◌, same, Exprs};
ghost use Rattle.spec.specs.Reading.{Row, row_width, readable};
ghost use Rattle.spec.specs.Calls.{filled, reading, is_versioned, version_bytes};
ghost use Rattle.atoms.specs.Refusals.{number};
ghost use Rattle.rows.specs.Rows.{cell};
ghost use Rattle.evaluator.specs.Evaluated.{HasRead, Arranged, Put, Ended, Evaluated};

use atoms::{Reason, Refusal};
use rows::forms::{Form, Node};
use rows::words::Core;
use rows::{forms, table};
use rules::here::Here;
use workspace::values::State;

// The bytes that count of a workspace: no result is longer.
pub const WORKSPACE_LIMIT: usize = 65536;

// The rows of the version form.
const VERSION_ROWS: usize = 4;

// The result's length and the steps taken.
#[derive(Clone, Copy, Debug, PartialEq, Eq)]
pub struct Evaluation {
    pub length: usize,
    pub steps: u64,
}

// Whether the first expression is headed by `version`.
fn is_versioned(s: &[u8], table: &[u32], rows: usize) -> bool
    requires { HasRead s.now table.now rows }
    ensures { (t : List ℕ) (rs : List Row) (es : Exprs) → reading s.now t ≡ readable rs es → result ≡ is_versioned es }
{
    if rows == 0 {
        return false;
    }
    match forms::element(table, false, 0) {
        Node::Leaf => false,
        Node::Branch(form) => form.head_key(s, table) == Core::VERSION,
    }
}

// Whether the stream begins with the version form of version 1.0, byte for byte.
fn has_version(s: &[u8]) -> bool
    ensures { result ≡ same (take 6 s.now) version_bytes }
{
    s.starts_with(b"\x01\x20\x00\x81\x80\x02")
}

// Why a stream is refused that doesn't begin with version 1.0.
fn wrong_version(s: &[u8], table: &[u32], rows: usize) -> Reason
    requires { HasRead s.now table.now rows }
    ensures { (t : List ℕ) (rs : List Row) (es : Exprs) → reading s.now t ≡ readable rs es → number result ≡ (when is_versioned es then 10 else 9) }
{
    if is_versioned(s, table, rows) {
        Reason::OtherVersion
    } else {
        Reason::NoVersion
    }
}

// Makes of a stream's bytecode what is evaluated. Tells whether there is any.
fn arrange(s: &[u8], table: &mut [u32], rows: usize) -> bool
    requires { HasRead s.now table.old rows × (same (take 6 s.now) version_bytes ≡ true) }
    ensures { Put table.old table.new rows result
        × ((t : List ℕ) (rs : List Row) (es : Exprs) → reading s.now t ≡ readable rs es → Arranged s.now table.new rows es) }
{
    if !bytecode::is_present(s, table, VERSION_ROWS, rows) {
        return false;
    }
    bytecode::transform(s, table, rows);
    true
}

// Leaves the rows as they were read.
fn restore(table: &mut [u32], rows: usize, arranged: bool)
    requires { row_width * rows ≤ length table.old }
    ensures { (t : List ℕ) → Put t table.old rows arranged → ((r : ℕ) → r < rows → (cell t r 0 < 256) × (cell t r 1 < 65536)) → table.new ≡ t }
{
    if arranged {
        bytecode::clear(table, rows);
    }
}

// Evaluates the whole stream in a workspace.
fn evaluate_all(
    s: &[u8],
    table: &[u32],
    rows: usize,
    w: &mut [u8],
    steps: u64,
) -> Result<State, Refusal>
    requires arranged { (es : Exprs) × Arranged s.now table.now rows es }
    requires w_len_bound { length w.old ≤ 65536 }
    ensures { (es : Exprs) → Arranged s.now table.now rows es → Ended steps w.old w.new rows es result }
{
    let mut associations = [0u64; 64];
    let args = [0u32; 64];
    let mut definitions = [0u64; 256];
    let room = w.len();
    let state = State {
        steps,
        room,
        top: 0,
        floor: room,
    };
    let all = Form {
        first: 0,
        end: rows,
        flat: false,
    };
    run::list(
        s,
        table,
        w,
        &mut associations,
        &args,
        &mut definitions,
        Here::start(),
        state,
        all,
    )
}

// Evaluates a stream whose rows are in the table; they are so many. The result then stands at the workspace's start.
// Kept: `rows` beside the table, which C lends longer than it is filled.
pub fn evaluate(
    s: &[u8],
    table: &mut [u32],
    rows: usize,
    work: &mut [u8],
    steps: u64,
) -> Result<Evaluation, Refusal>
    requires { HasRead s.now table.old rows }
    ensures { (table.new ≡ table.old) × ((t out : List ℕ) (rs : List Row) (es : Exprs) → reading s.now t ≡ readable rs es
        → table.old ≡ filled rs t → Evaluated s.now t work.old work.new out steps rs result) }
{
    if !has_version(s) {
        return Err(Refusal::new(wrong_version(s, table, rows), 0));
    }
    let arranged = arrange(s, table, rows);
    let size = work.len().min(WORKSPACE_LIMIT);
    let left = evaluate_all(s, table, rows, &mut work[..size], steps);
    restore(table, rows, arranged);
    match left {
        Err(refusal) => Err(Refusal {
            place: table::start(table, refusal.place),
            ..refusal
        }),
        Ok(state) => Ok(Evaluation {
            length: state.top,
            steps: steps - state.steps,
        }),
    }
}
