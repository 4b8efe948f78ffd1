// Expressions as the evaluator takes them: a form is a range of rows. Document 01: "form: the expressions between".
ghost use Rattle.std.specs.Prelude.{◌≡◌, List, true, false, ℕ, ◌<◌, leb};
ghost use Rattle.spec.specs.Nodes.{Node as Expression, Nodes, elements, head_word};
ghost use Rattle.spec.specs.Evaluation.{one_value};
ghost use Rattle.rows.specs.Rows.{RowInside, is_made, behind, written, NodeAt, NodesAt, operands_of};
ghost use Rattle.rows.specs.Forms.{meant, starting_at, flattened, element_at, past, result_at, is_named, HeadInside, HeadAt, SomeHead, head_key};

use crate::table;
use crate::words::{Core, Word};
use atoms::Kind;

// The elements of a form: those from row `first` up to row `end`. In a flat list operators stand for the forms that are made of them and their
// operands.
#[derive(Clone, Copy, Debug, PartialEq, Eq)]
pub struct Form {
    pub first: usize,
    pub end: usize,
    pub flat: bool,
}

// An atom, or a form.
// Kept: not `Option<Form>`, in which an atom would be a form that is missing.
#[derive(Clone, Copy, Debug, PartialEq, Eq)]
pub enum Node {
    Leaf,
    Branch(Form),
}

// The rows of a form's elements behind its head, of more than two those of the first two.
#[derive(Clone, Copy, Debug, PartialEq, Eq)]
pub enum Operands {
    // Not even a head.
    Empty,
    Zero,
    One(usize),
    Two(usize, usize),
    More(usize, usize),
}

// The form that is written at a row.
pub fn written(table: &[u32], row: usize) -> Form
    requires { RowInside table.now row × (row < 65536) }
    ensures { result ≡ written table.now row }
{
    Form {
        first: row + 1,
        end: table::next(table, row),
        flat: false,
    }
}

// Whether an element of a list is a form that is made of an operator and its operands.
fn is_made(table: &[u32], flat: bool, row: usize) -> bool
    requires { RowInside table.now row }
    ensures { result ≡ is_made table.now flat row }
{
    flat && table::link(table, row) != 0
}

// The element at a row of a list: made of the operator there, or written.
pub fn element(table: &[u32], flat: bool, row: usize) -> Node
    requires { RowInside table.now row × (row < 65536) }
    ensures { result ≡ element_at table.now flat row }
{
    if table::has_kind(table, row, Kind::Form) {
        return Node::Branch(written(table, row));
    }
    if is_made(table, flat, row) {
        return Node::Branch(Form {
            first: row,
            end: table::link(table, row),
            flat: false,
        });
    }
    Node::Leaf
}

// The row behind the element at a row of a list.
pub fn behind(table: &[u32], flat: bool, row: usize) -> usize
    requires { RowInside table.now row }
    ensures { result ≡ behind table.now flat row }
{
    if is_made(table, flat, row) {
        return table::link(table, row);
    }
    table::next(table, row)
}

// The word that heads the expression written at a row; plain if it is no form.
pub fn word_at(s: &[u8], table: &[u32], row: usize) -> Word
    requires { (e : Expression) × NodeAt s.now table.now false row e }
    ensures { (e : Expression) → NodeAt s.now table.now false row e → meant result ≡ head_word (elements e) }
{
    match element(table, false, row) {
        Node::Leaf => Word::Plain,
        Node::Branch(form) => form.word(s, table),
    }
}

impl Node {
    // The row behind an element of a list at a row.
    pub fn behind(self, row: usize) -> usize
        requires { row < 65536 }
        ensures { result ≡ past row self }
    {
        match self {
            Node::Leaf => row + 1,
            Node::Branch(form) => form.end,
        }
    }
}

impl Form {
    // The same form's elements from a row on.
    pub fn starting_at(self, first: usize) -> Self
        ensures { result ≡ starting_at first self }
    {
        Self { first, ..self }
    }

    // The same elements from a row on, as a flat list.
    pub fn flat_from(self, first: usize) -> Self
        ensures { result ≡ flattened first self }
    {
        Self {
            first,
            flat: true,
            ..self
        }
    }

    // What the flat list is transformed to: its one expression, or the form of all.
    pub fn result(self, table: &[u32]) -> Node
        requires { (self.flat ≡ true) × HeadInside table.now self }
        ensures { result ≡ result_at table.now self }
    {
        if self.is_empty() {
            return Node::Branch(self);
        }
        if behind(table, self.flat, self.first) < self.end {
            return Node::Branch(self);
        }
        element(table, self.flat, self.first)
    }

    pub fn is_empty(self) -> bool
        ensures { result ≡ leb self.end self.first }
    {
        self.end <= self.first
    }

    // Whether the head is a reference.
    pub fn is_named(self, table: &[u32]) -> bool
        requires { HeadInside table.now self }
        ensures { result ≡ is_named table.now self }
    {
        !self.is_empty()
            && table::has_kind(table, self.first, Kind::Reference)
            && !is_made(table, self.flat, self.first)
    }

    // The key of the reference that heads the form; 0 if none does.
    // Kept: no `Option`. 0 is the key of no name, so that callers compare keys and need not ask first.
    pub fn head_key(self, s: &[u8], table: &[u32]) -> u32
        requires { SomeHead s.now table.now self }
        ensures { (es : Nodes) → HeadAt s.now table.now self es → result ≡ head_key es }
    {
        if self.is_named(table) {
            return table::key(s, table, self.first);
        }
        0
    }

    // The word that heads the form; plain if no reference does.
    pub fn word(self, s: &[u8], table: &[u32]) -> Word
        requires { SomeHead s.now table.now self }
        ensures { (es : Nodes) → HeadAt s.now table.now self es → meant result ≡ head_word es }
    {
        Core::word(self.head_key(s, table))
    }

    // The elements behind the head.
    pub fn rest(self, table: &[u32]) -> Self
        requires { RowInside table.now self.first }
        ensures { result ≡ starting_at (behind table.now self.flat self.first) self }
    {
        self.starting_at(behind(table, self.flat, self.first))
    }

    // The rows of the elements behind the head.
    pub fn operands(self, table: &[u32]) -> Operands
        requires { (s : List ℕ) × (es : Nodes) × NodesAt s table.now false self.first self.end es }
        ensures { (s : List ℕ) (es : Nodes) → NodesAt s table.now false self.first self.end es → result ≡ operands_of es }
    {
        let end = self.end;
        if self.is_empty() {
            return Operands::Empty;
        }
        let second = table::next(table, self.first);
        if end <= second {
            return Operands::Zero;
        }
        let third = table::next(table, second);
        if end <= third {
            return Operands::One(second);
        }
        if end <= table::next(table, third) {
            return Operands::Two(second, third);
        }
        Operands::More(second, third)
    }

    // Whether the elements, a code's, are one expression other than a `rest` form.
    pub fn is_single(self, s: &[u8], table: &[u32]) -> bool
        requires { (es : Nodes) × NodesAt s.now table.now false self.first self.end es }
        ensures { (es : Nodes) → NodesAt s.now table.now false self.first self.end es → result ≡ one_value es }
    {
        !self.is_empty()
            && self.end <= table::next(table, self.first)
            && word_at(s, table, self.first) != Word::Rest
    }
}
