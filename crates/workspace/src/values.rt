// Values made complete: charged, and put on top of the finished ones or below the floor. Document 01: "Steps", "Workspace", refusals 16 and 17.
ghost use Rattle.std.specs.Prelude.{◌≡◌, false, List, ℕ, ◌+◌, ◌-◌, ◌≤◌, length, eqb, ltb, Ok, Err};
ghost use Rattle.spec.specs.Expr.{when◌then◌else◌, Atom, array, atom, form, Exprs, only, deepest, atom_bytes};
ghost use Rattle.spec.specs.Nodes.{Nodes, unnumbered_all};
ghost use Rattle.rows.specs.Rows.{cell, LeafAt, NodesAt};
ghost use Rattle.writer.specs.Bytes.{put_at};
ghost use Rattle.atoms.specs.Refusals.{refused};
ghost use Rattle.atoms.specs.declared.refusal.Reason.TheVariants.{NoSteps, FullWorkspace};
ghost use Rattle.workspace.specs.Completed.{Fitting, Stand, with_top, with_floor, with_steps, stepped, BodyOf, Atoms, SomeAtoms, Completed, Stored};

use atoms::{Kind, Reason, Refusal};
use rows::forms::Form;
use rows::{arrays, table};

// Steps and workspace that are left, where the finished values end, and where the definitions' begin.
// Kept: `top` and `floor` beside the lent bytes, no slices of them, since values move across both; and no struct with the bytes, which are lent where a
// state is handed on by value.
#[derive(Clone, Copy, Debug, PartialEq, Eq)]
pub struct State {
    pub steps: u64,
    pub room: usize,
    pub top: usize,
    pub floor: usize,
}

impl State {
    // One step is taken, for the expression at a row.
    pub fn step(self, row: usize) -> Result<Self, Refusal>
        ensures { result ≡ (when eqb self.steps 0 then Err (refused NoSteps row) else Ok (stepped self)) }
    {
        if self.steps == 0 {
            return Err(Refusal::new(Reason::NoSteps, row));
        }
        Ok(self.less(1))
    }

    // So many steps are taken.
    pub fn less(self, n: u64) -> Self
        requires { n ≤ self.steps }
        ensures { result ≡ with_steps self (self.steps - n) }
    {
        Self {
            steps: self.steps - n,
            ..self
        }
    }

    // The definitions' values begin at `floor`.
    pub fn down_to(self, floor: usize) -> Self
        ensures { result ≡ with_floor self floor }
    {
        Self { floor, ..self }
    }

    // The finished values end at `top`, and n bytes are charged for the expression at a row, if there are as many left.
    pub fn charged(self, n: usize, top: usize, row: usize) -> Result<Self, Refusal>
        ensures { result ≡ (when ltb self.room n then Err (refused FullWorkspace row) else Ok (with_top self (self.room - n) top)) }
    {
        if self.room < n {
            return Err(Refusal::new(Reason::FullWorkspace, row));
        }
        Ok(Self {
            room: self.room - n,
            top,
            ..self
        })
    }
}

// The body of an atom of that kind: an array's bytes, or all bytes of another atom.
#[derive(Clone, Copy)]
struct Body {
    kind: Kind,
    from: usize,
    to: usize,
}

// Where the bytes of the array at a row begin. Kept apart, so that other atoms need no slices in memory.
fn array_body(s: &[u8], table: &[u32], row: usize) -> usize
    requires { (bs : List ℕ) × LeafAt s.now table.now row (array bs) }
    ensures { (bs : List ℕ) → LeafAt s.now table.now row (array bs) → result ≡ cell table.now row 2 - length bs }
{
    arrays::body(s, table, row)
}

// The body of the atom at a row.
fn body_at(s: &[u8], table: &[u32], row: usize) -> Body
    requires { (a : Atom) × LeafAt s.now table.now row a }
    ensures { (a : Atom) → LeafAt s.now table.now row a → BodyOf s.now a result }
{
    let kind = table::atom_kind(table, row);
    let from = match kind {
        Kind::Array => array_body(s, table, row),
        _ => table::start(table, row),
    };
    Body {
        kind,
        from,
        to: table::end(table, row),
    }
}

// Writes the atom at a row as it is written canonically, if `room` is enough; gives how many bytes that is.
fn put_leaf(s: &[u8], table: &[u32], w: &mut [u8], at: usize, room: usize, row: usize) -> usize
    requires room_in_bounds { (at + room ≤ length w.old) × (length w.old ≤ 65536) }
    requires leaf_at { (a : Atom) × LeafAt s.now table.now row a }
    ensures { (a : Atom) → LeafAt s.now table.now row a → (result ≡ length (atom_bytes a)) × (result ≤ room → w.new ≡ put_at w.old at (atom_bytes a)) }
{
    let body = body_at(s, table, row);
    let from = body.from;
    let to = body.to;
    let n = writer::atom_size(body.kind, to - from);
    if n <= room {
        writer::put_atom(body.kind, &s[from..to], w, at);
    }
    n
}

// The value of the atom at a row, with another row's place, that stands for itself.
pub fn own(
    s: &[u8],
    table: &[u32],
    w: &mut [u8],
    state: State,
    row: usize,
    place: usize,
) -> Result<State, Refusal>
    requires fitting { Fitting w.old state }
    requires leaf_at { (a : Atom) × LeafAt s.now table.now row a }
    ensures { (a : Atom) → LeafAt s.now table.now row a → Completed w.old w.new state state.top place (only (atom a)) result }
{
    let top = state.top;
    let n = put_leaf(s, table, w, top, state.room, row);
    state.charged(n, top + n, place)
}

// The value of a form of atoms that stands for itself; n counts its bytes so far, with its 01 and 02.
pub fn itself(
    s: &[u8],
    table: &[u32],
    w: &mut [u8],
    state: State,
    range: Form,
    place: usize,
) -> Result<State, Refusal>
    requires fitting { Fitting w.old state }
    requires some_atoms { SomeAtoms s.now table.now range }
    ensures { (es : Nodes) → NodesAt s.now table.now false range.first range.end es → Atoms es → Completed w.old w.new state state.top place (only (form (unnumbered_all es))) result }
{
    let top = state.top;
    let room = state.room;
    let full = Refusal::new(Reason::FullWorkspace, place);
    if room < 2 {
        return Err(full);
    }
    let mut n: usize = 2;
    for row in range.first..range.end {
        let size = put_leaf(s, table, w, top + n - 1, room - n, row);
        if room - n < size {
            return Err(full);
        }
        n += size;
    }
    w[top] = 0x01;
    w[top + n - 1] = 0x02;
    state.charged(n, top + n, place)
}

// The values from `from` up to `to`, instead of all from `start` on.
pub fn copied(
    w: &mut [u8],
    state: State,
    from: usize,
    to: usize,
    start: usize,
    row: usize,
) -> Result<State, Refusal>
    requires fitting { Fitting w.old state }
    requires from_le_to { (from ≤ to) × (to ≤ length w.old) × (start ≤ state.top) }
    ensures { (vs : Exprs) → Stand w.old from to vs → deepest vs ≤ 64 → Completed w.old w.new state start row vs result }
{
    let n = to - from;
    let left = state.charged(n, start + n, row)?;
    w.copy_within(from..to, start);
    Ok(left)
}

// The values from `start` up to the top, made a definition's: they go below the floor.
pub fn stored(w: &mut [u8], state: State, start: usize) -> State
    requires { Fitting w.old state × (start ≤ state.top) }
    ensures { Stored w.old w.new state start result }
{
    let top = state.top;
    let floor = state.floor - (top - start);
    w.copy_within(start..top, floor);
    State {
        top: start,
        floor,
        ..state
    }
}
