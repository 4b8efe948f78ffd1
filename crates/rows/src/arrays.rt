// Where an array's bytes begin. Its length was read before, and however long that is written, it is not read whole again.
// Document 01: "generic array".
ghost use Rattle.std.specs.Prelude.{◌≡◌, List, ℕ, ◌-◌, ◌≤◌, length, take, drop};
ghost use Rattle.spec.specs.Expr.{array};
ghost use Rattle.spec.specs.Reading.{taken, natural, length_expr};
ghost use Rattle.atoms.specs.Tokens.{around};
ghost use Rattle.rows.specs.Rows.{cell, LeafAt};
ghost use Rattle.rows.specs.Lengths.{EndsAt};

use crate::table::start;

// The number of the bytes from `from` up to `to`. It is not above 65,536, so the last three bytes tell.
fn short_number(s: &[u8], from: usize, to: usize) -> usize
    requires { (from ≤ to) × (to ≤ length s.now) × (natural 0 (take (to - from) (drop from s.now)) ≤ 65536) }
    ensures { result ≡ natural 0 (take (to - from) (drop from s.now)) }
{
    if to - from <= 3 {
        return atoms::number(s, from, to);
    }
    atoms::number(s, to - 3, to)
}

// Where a length ends that is the length of the next, `depth` times: the innermost is `value` and ends at `from`.
fn nested_end(s: &[u8], value: usize, from: usize, depth: usize) -> usize
    requires { (length s.now ≤ 65536) × (from ≤ length s.now) × ((e : ℕ) × EndsAt s.now (around depth (taken value (drop from s.now))) e) }
    ensures { EndsAt s.now (around depth (taken value (drop from s.now))) result }
{
    let mut v = value;
    let mut at = from;
    for _ in 0..depth {
        let end = at + v;
        v = short_number(s, at, end);
        at = end;
    }
    at
}

// Where the length expression at a place ends, behind an array's own 03.
fn length_end(s: &[u8], at: usize) -> usize
    requires { (length s.now ≤ 65536) × (at ≤ length s.now) × ((e : ℕ) × EndsAt s.now (length_expr 7 (drop at s.now)) e) }
    ensures { EndsAt s.now (length_expr 7 (drop at s.now)) result }
{
    let depth = atoms::threes(s, at);
    let p = at + depth;
    let b = usize::from(s[p]);
    let q = p + 1;
    if b < 0xC0 {
        return nested_end(s, b - 0x80, q, depth);
    }
    let e = q + (b - 0xC0);
    nested_end(s, short_number(s, q, e), e, depth)
}

// Where an array's bytes begin.
pub fn body(s: &[u8], table: &[u32], row: usize) -> usize
    requires { (bs : List ℕ) × LeafAt s.now table.now row (array bs) }
    ensures { (bs : List ℕ) → LeafAt s.now table.now row (array bs) → result ≡ cell table.now row 2 - length bs }
{
    let at = start(table, row);
    if s[at] != 3 {
        return at + 1;
    }
    length_end(s, at + 1)
}
