// All bytecode forms of a stream, those outside first.
ghost use Rattle.std.specs.Prelude.{◌≡◌, List, false, ℕ, ◌+◌, ◌<◌, eqb};
ghost use Rattle.spec.specs.Expr.{when◌then◌else◌};
ghost use Rattle.spec.specs.Nodes.{Nodes};
ghost use Rattle.spec.specs.Bytecode.{Around, all, transform_all};
ghost use Rattle.spec.proofs.Flat.{arity_list};
ghost use Rattle.rows.specs.Rows.{RowInside, mark, link, WrittenAll, NodesAt};
ghost use Rattle.bytecode.specs.Numbers.{Changed};
ghost use Rattle.bytecode.specs.Gathered.{refusal_of};
ghost use Rattle.bytecode.specs.Frames.{Frame};
ghost use Rattle.bytecode.specs.Scanned.{AroundAt, Nearest, HeadedAt, Enclosed, Standing, Moved, StarRefusal, Judged, Starred, FormChanged, Readable};

use crate::arities::Arities;
use crate::{arities, around, flat, heights, numbers};
use atoms::Reason;
use rows::forms::{Form, Node};
use rows::words::Core;
use rows::{forms, table};

// The row that comes next, and the arity list of the nearest `prefix*` form around it; 0 if there is none.
// Kept: 0 for none, as the table's links have it: an Option would be made of each link that is read, and 0 of each that is put.
#[derive(Clone, Copy, Debug, PartialEq, Eq)]
struct Scan {
    row: usize,
    around: usize,
}

// The mark of a bytecode form: its refusal's number, or which of its elements are the flat list.
// Kept: 1 and 2 are numbers, as `OutcomeAt` has them in the table.
fn put_verdict(table: &mut [u32], form: Form, verdict: Result<(), Reason>, fine: u32)
    requires { RowInside table.old form.first × (fine < 128) }
    ensures { Changed table.old table.new form.first (form.first + 1) × (mark table.new form.first ≡ (when eqb (refusal_of verdict) 0 then fine else refusal_of verdict)) × (link table.new form.first ≡ link table.old form.first) }
{
    let mark = match verdict {
        Ok(()) => fine,
        Err(reason) => u32::from(reason),
    };
    numbers::put_mark(table, form.first, mark);
}

// Transforms a form headed by `prefix*`, or refuses it.
fn star_flat(s: &[u8], table: &mut [u32], form: Form) -> Result<(), Reason>
    requires { (es : Nodes) × HeadedAt s.now table.old form es }
    ensures { Changed table.old table.new (form.first + 1) form.end
        × ((es : Nodes) (out : Around) → HeadedAt s.now table.old form es
        → StarRefusal s.now table.new form out es (arity_list es) (refusal_of result)) }
{
    let list = form.first + 1;
    if form.end <= list || !arities::name_list(s, table, list) {
        return Err(Reason::WrongBytecode);
    }
    let own = Arities { tree: list };
    flat::unflatten(s, table, own, form.flat_from(table::next(table, list)))
}

// A form headed by `prefix*`.
fn star(s: &[u8], table: &mut [u32], form: Form, around: usize) -> Scan
    requires { ((es : Nodes) × HeadedAt s.now table.old form es) × ((out : Around) × Enclosed s.now table.old form around out) }
    ensures { FormChanged table.old table.new form
        × ((es : Nodes) (out : Around) → HeadedAt s.now table.old form es → Enclosed s.now table.old form around out
        → Starred s.now table.new form around out es (arity_list es) result) }
{
    let verdict = star_flat(s, table, form);
    put_verdict(table, form, verdict, 2);
    if verdict.is_err() {
        return Scan {
            row: form.end,
            around,
        };
    }
    let list = form.first + 1;
    numbers::put_link(table, form.first, form.end);
    numbers::put_link(table, list, around);
    around::switch(s, table, list);
    Scan {
        row: table::next(table, list),
        around: list,
    }
}

// A form headed by `prefix`, inside a `prefix*` form.
fn nested(s: &[u8], table: &mut [u32], form: Form, around: usize) -> Scan
    requires { ((es : Nodes) × HeadedAt s.now table.old form es) × ((out : Around) × Enclosed s.now table.old form around out) }
    ensures { FormChanged table.old table.new form
        × ((es : Nodes) (out : Around) → HeadedAt s.now table.old form es → Enclosed s.now table.old form around out
        → Judged s.now table.new form around 1 (all out) out out es result) }
{
    let first = form.first + 1;
    let all = Arities { tree: around::ALL };
    let verdict = flat::unflatten(s, table, all, form.flat_from(first));
    put_verdict(table, form, verdict, 1);
    if verdict.is_err() {
        return Scan {
            row: form.end,
            around,
        };
    }
    Scan { row: first, around }
}

// The nearest arity list whose form has not ended before a row. Those nearer are left.
fn nearest(s: &[u8], table: &mut [u32], around: usize, row: usize) -> usize
    requires { (out : Around) × AroundAt s.now table.old row around out }
    ensures { (out : Around) → AroundAt s.now table.old row around out → Nearest s.now table.old table.new row around out result }
{
    let mut list = around;
    // Kept: a `while`, since only a list's link tells the list around it.
    while list != 0 {
        if row < table::link(table, list - 1) {
            return list;
        }
        around::switch(s, table, list);
        list = table::link(table, list);
    }
    0
}

// The expression at a row.
fn visit(s: &[u8], table: &mut [u32], scan: Scan) -> Scan
    requires { (end : ℕ) × (fs : List Frame) × Standing s.now table.old scan end fs × (scan.row < end) }
    ensures { (end : ℕ) (fs : List Frame) → Standing s.now table.old scan end fs → scan.row < end
        → Moved s.now table.old table.new scan result end fs }
{
    let row = scan.row;
    let around = nearest(s, table, scan.around, row);
    let inside = Scan {
        row: row + 1,
        around,
    };
    let Node::Branch(form) = forms::element(table, true, row) else {
        return inside;
    };
    match form.head_key(s, table) {
        Core::PREFIX_STAR => star(s, table, form, around),
        Core::PREFIX if around != 0 => nested(s, table, form, around),
        _ => inside,
    }
}

// Transforms a stream whose rows are in a table; they are so many.
pub fn transform(s: &[u8], table: &mut [u32], rows: usize)
    requires { Readable s.now table.old rows }
    ensures { Changed table.old table.new 0 rows
        × ((es : Nodes) → WrittenAll s.now table.old 0 rows es → NodesAt s.now table.new false 0 rows (transform_all es)) }
{
    heights::measure(table, rows);
    let mut scan = Scan { row: 0, around: 0 };
    // Kept: a `while`, since only a visit tells what comes next.
    while scan.row < rows {
        scan = visit(s, table, scan);
    }
}
