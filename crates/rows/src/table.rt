// The numbers of a row, and what an atom's bytes tell. Document 01: "Table".
ghost use Rattle.std.specs.Prelude.{◌≡◌, List, ℕ, ◌<◌, eqb};
ghost use Rattle.spec.specs.Expr.{Atom, int, ref};
ghost use Rattle.spec.specs.Reading.{row_width};
ghost use Rattle.atoms.specs.Tokens.{kind_number, kind_of};
ghost use Rattle.rows.specs.Rows.{RowInside, cell, kind as kind_in, start, mark, link, LeafAt, key_of};

use atoms::Kind;
use reader::ROW_WIDTH;

// Kept: `as`, where there is no `From`: the bounds are proved, and what `try_from` gives would have to be unwrapped.
// Kept: table and row are no struct. It would be made anew for each number that is read, and would have to show the same of the row.

// Number j of a row.
fn number(table: &[u32], row: usize, j: usize) -> u32
    requires { RowInside table.now row × (j < row_width) }
    ensures { result ≡ cell table.now row j }
{
    table[ROW_WIDTH * row + j]
}

// Whether a row is of a kind.
pub fn has_kind(table: &[u32], row: usize, kind: Kind) -> bool
    requires { RowInside table.now row }
    ensures { result ≡ eqb (kind_in table.now row) (kind_number kind) }
{
    number(table, row, 0) % 256 == u32::from(kind)
}

// The kind of an atom's row.
pub fn atom_kind(table: &[u32], row: usize) -> Kind
    requires { (s : List ℕ) × (a : Atom) × LeafAt s table.now row a }
    ensures { (s : List ℕ) (a : Atom) → LeafAt s table.now row a → result ≡ kind_of a }
{
    match number(table, row, 0) % 256 {
        0 => Kind::Nil,
        2 => Kind::Array,
        3 => Kind::Int,
        _ => Kind::Reference,
    }
}

pub fn start(table: &[u32], row: usize) -> usize
    requires { RowInside table.now row }
    ensures { result ≡ start table.now row }
{
    (number(table, row, 1) % 65536) as usize
}

pub fn end(table: &[u32], row: usize) -> usize
    requires { RowInside table.now row }
    ensures { result ≡ cell table.now row 2 }
{
    number(table, row, 2) as usize
}

pub fn next(table: &[u32], row: usize) -> usize
    requires { RowInside table.now row }
    ensures { result ≡ cell table.now row 3 }
{
    number(table, row, 3) as usize
}

// Numbers of a row besides, while a stream is evaluated: a mark and a link above its kind, 0 for none.
// Kept: no `Option`, no enum. They are told as they stand in the table, which C lends.

pub fn mark(table: &[u32], row: usize) -> u32
    requires { RowInside table.now row }
    ensures { result ≡ mark table.now row }
{
    number(table, row, 0) / 256 % 128
}

pub fn link(table: &[u32], row: usize) -> usize
    requires { RowInside table.now row }
    ensures { result ≡ link table.now row }
{
    (number(table, row, 0) / 32768) as usize
}

// The number of a small integer.
pub fn small(s: &[u8], table: &[u32], row: usize) -> usize
    requires { (v : ℕ) × LeafAt s.now table.now row (int v) }
    ensures { (v : ℕ) → LeafAt s.now table.now row (int v) → result ≡ v }
{
    let at = start(table, row);
    usize::from(s[at] - 0x80)
}

// A reference's key, by its first and its last two bytes: those between 7F and the marker's last are FF.
pub fn key(s: &[u8], table: &[u32], row: usize) -> u32
    requires { (m : ℕ) × (n : ℕ) × LeafAt s.now table.now row (ref m n) }
    ensures { (m n : ℕ) → LeafAt s.now table.now row (ref m n) → result ≡ key_of m n }
{
    let from = start(table, row);
    let to = end(table, row);
    let name = u32::from(s[to - 1]);
    let first = u32::from(s[from]);
    if first != 0x7F {
        return first * 256 + name;
    }
    let full = (to - from - 3) as u32;
    (127 + full * 255 + u32::from(s[to - 2])) * 256 + name
}
