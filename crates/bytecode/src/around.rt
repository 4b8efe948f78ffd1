// The arity lists around a row. The tree of row 0 has the references of all lists so far, of each key the first. Its mark tells the arity by the
// nearest list around that names the key, 63 if none does; what it was outside of that list is the mark of the list's own reference.
ghost use Rattle.std.specs.Prelude.{List, ◌∷◌, ℕ};
ghost use Rattle.spec.specs.Bytecode.{Operator, Around};
ghost use Rattle.rows.specs.Rows.{RowInside, link, next, ReferenceAt};
ghost use Rattle.bytecode.specs.Numbers.{Aside};
ghost use Rattle.bytecode.specs.Named.{Tree, Arounds, Entering, Exchanged, Switched, Switchable};

use crate::tree::Vacancy;
use crate::{numbers, tree};
use atoms::Kind;
use rows::table;

// Kept: 63 for no arity, no `Option`: it is put into the table as a mark.

// The row whose tree has the references of all lists.
pub const ALL: usize = 0;

// The marks of a reference and of the first with its key change places. The first itself had none before.
fn exchange(table: &mut [u32], first: usize, row: usize)
    requires { RowInside table.old first × RowInside table.old row }
    ensures { Exchanged table.old table.new first row }
{
    if first == row {
        numbers::put_mark(table, row, 63);
        return;
    }
    let mark = table::mark(table, first);
    let new = table::mark(table, row);
    numbers::put_mark(table, first, new);
    numbers::put_mark(table, row, mark);
}

// The arity of one reference of a list applies, or no longer.
fn switch_one(s: &[u8], table: &mut [u32], row: usize)
    requires { ((to : ℕ) × (node : ℕ → ℕ) × Tree s.now table.old 0 to node) × ReferenceAt s.now table.old row }
    ensures { Switched s.now table.old table.new row }
{
    let key = table::key(s, table, row);
    match tree::seek(s, table, ALL, key) {
        Ok(first) => exchange(table, first, row),
        Err(Vacancy { row: last, bit }) => {
            numbers::put_child(table, row, 0, 0);
            numbers::put_child(table, row, 1, 0);
            numbers::put_child(table, last, bit, row);
        }
    }
}

// The arities of a list apply from here on, or if they do, no longer.
pub fn switch(s: &[u8], table: &mut [u32], list: usize)
    requires { Switchable s.now table.old list }
    ensures { Aside table.old table.new (next table.old list) (next table.old list)
        × ((os : List Operator) (around : Around) → Entering s.now table.old list os around → Arounds s.now table.new (next table.old list) list (os ∷ around))
        × ((to : ℕ) (os : List Operator) (around : Around) → Arounds s.now table.old to list (os ∷ around) → Arounds s.now table.new to (link table.old list) around) }
{
    let end = table::next(table, list);
    for row in list + 1..end {
        if table::has_kind(table, row, Kind::Reference) {
            switch_one(s, table, row);
        }
    }
}
