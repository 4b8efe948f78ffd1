// How many forms are one inside another: of each written form its mark, of a result whether they are over 64.
ghost use Rattle.std.specs.Prelude.{◌≡◌, List, ℕ, max, ◌<◌, ltb};
ghost use Rattle.spec.specs.Nodes.{Node as Expression, Nodes};
ghost use Rattle.spec.specs.Bytecode.{node_depth, nodes_deepest};
ghost use Rattle.rows.specs.Rows.{RowInside, WrittenAll};
ghost use Rattle.rows.specs.declared.forms.Node.TheVariants.{Branch as AsBranch};
ghost use Rattle.bytecode.specs.Numbers.{Changed};
ghost use Rattle.bytecode.specs.Gathered.{height, Measurable, Measured, SameLinks, SameOthers, IsPiece, Plain};

use crate::numbers;
use atoms::Kind;
use rows::forms::{Form, Node};
use rows::{forms, table};

// The larger height of two: known before, and of the expression written at a row.
fn higher(table: &[u32], row: usize, known: u32) -> u32
    requires { RowInside table.now row }
    ensures { result ≡ max known (height table.now row) }
{
    if !table::has_kind(table, row, Kind::Form) {
        return known;
    }
    known.max(table::mark(table, row))
}

// The height of the expressions written from a row up to another.
fn highest(table: &[u32], first: usize, end: usize) -> u32
    requires { (s : List ℕ) × (es : Nodes) × WrittenAll s table.now first end es }
    ensures { (result < 128) × ((s : List ℕ) (es : Nodes) → WrittenAll s table.now first end es → Measured s table.now first end → result ≡ nodes_deepest es) }
{
    let mut row = first;
    let mut height: u32 = 0;
    // Kept: a `while`, since only an expression's row tells where the next begins.
    while row < end {
        height = higher(table, row, height);
        row = table::next(table, row);
    }
    height
}

// Marks all forms of a stream with their heights, the last first.
pub fn measure(table: &mut [u32], rows: usize)
    requires { Measurable table.old rows }
    ensures { Changed table.old table.new 0 rows × SameLinks table.old table.new × SameOthers table.old table.new × ((s : List ℕ) → Measured s table.new 0 rows) }
{
    for row in (0..rows).rev() {
        if table::has_kind(table, row, Kind::Form) {
            let inside = highest(table, row + 1, table::next(table, row));
            numbers::put_mark(table, row, inside + 1);
        }
    }
}

// The height of an element of a list.
fn height_of(table: &[u32], node: Node) -> u32
    requires { Plain node × ((s : List ℕ) × (e : Expression) × IsPiece s table.now node e) }
    ensures { (s : List ℕ) (e : Expression) → IsPiece s table.now node e → result ≡ node_depth e }
{
    match node {
        Node::Leaf => 0,
        Node::Branch(form) => highest(table, form.first, form.end) + 1,
    }
}

// Whether over 64 forms are one inside another in a form.
pub fn is_deep(table: &[u32], form: Form) -> bool
    requires { (s : List ℕ) × (e : Expression) × IsPiece s table.now (AsBranch form) e }
    ensures { (s : List ℕ) (e : Expression) → IsPiece s table.now (AsBranch form) e → result ≡ ltb 64 (node_depth e) }
{
    let end = form.end;
    let flat = form.flat;
    let mut row = form.first;
    // Kept: a `while`, since only an expression's row tells where the next begins.
    while row < end {
        if 63 < height_of(table, forms::element(table, flat, row)) {
            return true;
        }
        row = forms::behind(table, flat, row);
    }
    false
}
