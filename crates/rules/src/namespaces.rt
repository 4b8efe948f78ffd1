// Refusal 14: which markers are borne, which ids are used. Document 01: `( ns ref id )`.
ghost use Rattle.std.specs.Prelude.{◌≡◌, List, false, ℕ, ◌+◌, ◌≤◌, length, eqb};
ghost use Rattle.std.proofs.Math.Seq.{slice};
ghost use Rattle.spec.specs.Expr.{same, some, Atom};
ghost use Rattle.spec.specs.Nodes.{Node, leaf, Nodes, markers, markers_all};
ghost use Rattle.spec.specs.Plan.{Namespace, clash, undefinable};
ghost use Rattle.rows.specs.Rows.{kind, LeafAt, WrittenAt, NodesAt};
ghost use Rattle.rules.specs.Scope.{latest};
ghost use Rattle.rules.specs.Associations.{Linked, SomeLinked};

use crate::entries;
use crate::scope::Scope;
use atoms::Kind;
use rows::table;
use rows::words::Core;

// Whether an id, which is the stream's bytes from a place up to another, is used.
fn used(s: &[u8], associations: &[u64; 64], scope: Scope, from: usize, to: usize) -> bool
    requires some_linked { SomeLinked s.now associations.now scope }
    requires from_le_to { (from ≤ to) × (to ≤ length s.now) }
    ensures { (ks : List Namespace) → Linked s.now (latest associations.now scope.associated) ks → result ≡ some (λ k. same k.id (slice from to s.now)) ks }
{
    for entry in &associations[..scope.associated] {
        let place = entries::place_in(*entry);
        let end = place + entries::size_in(*entry);
        if &s[place..end] == &s[from..to] {
            return true;
        }
    }
    false
}

// Whether the reference at a row bears a marker.
fn bears(s: &[u8], table: &[u32], row: usize, marker: u32) -> bool
    requires { (e : Node) × WrittenAt s.now table.now row e }
    ensures { ((q : ℕ) (a : Atom) → LeafAt s.now table.now row a → result ≡ some (eqb marker) (markers (leaf q a))) × (kind table.now row ≡ 1 → result ≡ false) }
{
    table::has_kind(table, row, Kind::Reference) && marker == table::key(s, table, row) / 256
}

// Whether a reference before a row of the top level bears a marker.
fn borne(s: &[u8], table: &[u32], row: usize, marker: u32) -> bool
    requires { (es : Nodes) × NodesAt s.now table.now false 0 row es }
    ensures { (es : Nodes) → NodesAt s.now table.now false 0 row es → result ≡ some (eqb marker) (markers_all es) }
{
    for r in 0..row {
        if bears(s, table, r, marker) {
            return true;
        }
    }
    false
}

// Whether an ns form at a row may not associate a marker with the id that is the stream's bytes from a place up to another.
pub fn clash(
    s: &[u8],
    table: &[u32],
    associations: &[u64; 64],
    scope: Scope,
    row: usize,
    marker: u32,
    from: usize,
    to: usize,
) -> bool
    requires some_linked { SomeLinked s.now associations.now scope }
    requires nodes_at { (es : Nodes) × NodesAt s.now table.now false 0 row es }
    requires from_le_to { (from ≤ to) × (to ≤ length s.now) }
    ensures { (ks : List Namespace) (es : Nodes) (earlier : List ℕ) → Linked s.now (latest associations.now scope.associated) ks
        → NodesAt s.now table.now false 0 row es → some (eqb marker) earlier ≡ some (eqb marker) (markers_all es)
        → result ≡ clash marker (slice from to s.now) earlier ks }
{
    marker == Core::MARKER || borne(s, table, row, marker) || used(s, associations, scope, from, to)
}

// Whether nothing may be defined with a marker.
pub fn undefinable(associations: &[u64; 64], scope: Scope, marker: u32) -> bool
    requires { scope.associated ≤ 64 }
    ensures { (s : List ℕ) (ks : List Namespace) → Linked s (latest associations.now scope.associated) ks → result ≡ undefinable marker ks }
{
    marker == Core::MARKER || !scope.has_marker(associations, marker)
}
