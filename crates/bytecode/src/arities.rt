// Arity lists: forms of forms, each a small integer and then references. The tree of a list's row has its references. A reference's mark is 64
// and its arity.
ghost use Rattle.std.specs.Prelude.{◌≡◌, List, ℕ, ◌+◌, ◌<◌, Some, None};
ghost use Rattle.spec.specs.Expr.{int};
ghost use Rattle.spec.specs.Nodes.{Node, Nodes, empty, cons};
ghost use Rattle.spec.specs.Bytecode.{Operator, if_operator, series, arities, operators};
ghost use Rattle.rows.specs.Rows.{kind, next, LeafAt, WrittenAt};
ghost use Rattle.bytecode.specs.Numbers.{Changed};
ghost use Rattle.bytecode.specs.Named.{arity_by, Naming, NamedBy, ListAt};
ghost use Rattle.bytecode.specs.Gathered.{Tells};

use crate::tree::Vacancy;
use crate::{numbers, tree};
use atoms::Kind;
use rows::table;

// One more reference of an arity list. False if it is named before.
fn name(s: &[u8], table: &mut [u32], list: usize, row: usize, arity: u32) -> bool
    requires { ((e : Node) × (os : List Operator) × Naming s.now table.old list row (next table.old row) os (cons e empty)) × (kind table.old row ≡ 4) × (arity < 64) }
    ensures { Changed table.old table.new list (next table.old row) × ((e : Node) (os : List Operator) → Naming s.now table.old list row (next table.old row) os (cons e empty)
        → NamedBy s.now table.new list (next table.old row) (series arity (cons e empty) os) result) }
{
    let key = table::key(s, table, row);
    match tree::seek(s, table, list, key) {
        Ok(_) => false,
        Err(Vacancy { row: last, bit }) => {
            numbers::put_mark(table, row, 64 + arity);
            numbers::put_child(table, last, bit, row);
            true
        }
    }
}

// The references behind the small integer of one form of an arity list, up to a row.
fn name_all(s: &[u8], table: &mut [u32], list: usize, number: usize, end: usize) -> bool
    requires { ((n : ℕ) × LeafAt s.now table.old number (int n)) × ((es : Nodes) × (os : List Operator) × Naming s.now table.old list (number + 1) end os es) }
    ensures { Changed table.old table.new list end × ((n : ℕ) (es : Nodes) (os : List Operator) → LeafAt s.now table.old number (int n)
        → Naming s.now table.old list (number + 1) end os es → NamedBy s.now table.new list end (series n es os) result) }
{
    // Kept: `as`, here and in `arity_by`, for which there is no `From`.
    let arity = table::small(s, table, number) as u32;
    for row in number + 1..end {
        if !table::has_kind(table, row, Kind::Reference) {
            return false;
        }
        if !name(s, table, list, row, arity) {
            return false;
        }
    }
    true
}

// One form of an arity list.
fn entry(s: &[u8], table: &mut [u32], list: usize, row: usize) -> bool
    requires { (e : Node) × (os : List Operator) × Naming s.now table.old list row (next table.old row) os (cons e empty) }
    ensures { Changed table.old table.new list (next table.old row) × ((e : Node) (os : List Operator) → Naming s.now table.old list row (next table.old row) os (cons e empty)
        → NamedBy s.now table.new list (next table.old row) (arities (cons e empty) os) result) }
{
    if !table::has_kind(table, row, Kind::Form) {
        return false;
    }
    let end = table::next(table, row);
    if end <= row + 1 {
        return false;
    }
    if !table::has_kind(table, row + 1, Kind::Int) {
        return false;
    }
    name_all(s, table, list, row + 1, end)
}

// Names all references of the arity list at a row. False if none is there, or a reference is named twice.
pub fn name_list(s: &[u8], table: &mut [u32], list: usize) -> bool
    requires { (e : Node) × ListAt s.now table.old list e }
    ensures { Changed table.old table.new list (next table.old list) × ((e : Node) → ListAt s.now table.old list e
        → NamedBy s.now table.new list (next table.old list) (operators e) result) }
{
    if !table::has_kind(table, list, Kind::Form) {
        return false;
    }
    let end = table::next(table, list);
    let mut row = list + 1;
    // Kept: a `while`, since only a form's row tells where the next begins.
    while row < end {
        if !entry(s, table, list, row) {
            return false;
        }
        row = table::next(table, row);
    }
    true
}

// The arity lists that tell operators: the one at a row, or at row 0 all that are around.
#[derive(Clone, Copy, Debug, PartialEq, Eq)]
pub struct Arities {
    pub tree: usize,
}

// The arity that a mark tells, if it is an operator's.
fn arity_by(mark: u32) -> Option<usize>
    ensures { result ≡ arity_by mark }
{
    if mark < 64 {
        return None;
    }
    Some((mark - 64) as usize)
}

impl Arities {
    // The arity of the expression at a row, if it is an operator.
    pub fn arity(self, s: &[u8], table: &[u32], row: usize) -> Option<usize>
        requires { ((os : List Operator) × Tells s.now table.now self os) × ((e : Node) × WrittenAt s.now table.now row e) }
        ensures { (os : List Operator) (e : Node) → Tells s.now table.now self os → WrittenAt s.now table.now row e → result ≡ if_operator os e (λ k. Some k) None }
    {
        if !table::has_kind(table, row, Kind::Reference) {
            return None;
        }
        let named = tree::seek(s, table, self.tree, table::key(s, table, row)).ok()?;
        arity_by(table::mark(table, named))
    }
}
