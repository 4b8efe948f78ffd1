// Values made of others: forms, the join of two arrays; and where arguments stand. Document 01: "The value is the form of the values.", refusal 6.
ghost use Rattle.std.specs.Prelude.{◌≡◌, List, ◌++◌, ℕ, ◌+◌, ◌≤◌, ◌<◌, length, set, leb};
ghost use Rattle.std.proofs.Math.Seq.{slice};
ghost use Rattle.spec.specs.Expr.{array, Expr, atom, form, Exprs, more, only, size, deepest, canonical};
ghost use Rattle.laws.proofs.Fits.{FitsAll};
ghost use Rattle.workspace.specs.Packed.{pack};
ghost use Rattle.workspace.specs.Joins.{array_at};
ghost use Rattle.workspace.specs.Completed.{Fitting, Stand, Completed, Joined, ArgumentsAt};

use crate::packed;
use crate::values::State;
use atoms::{Kind, Reason, Refusal, Token};
use std::ops::Range;

// Kept: `state`, `start` and `row` are no struct, here and in `values`: most callers have them apart.

// Whether values have at most 63 forms one inside another.
fn shallow(values: &[u8]) -> bool
    requires values_len_bound { length values.now ≤ 65536 }
    requires values_value { (vs : Exprs) × (values.now ≡ canonical vs) × FitsAll vs }
    ensures { (vs : Exprs) → values.now ≡ canonical vs → FitsAll vs → result ≡ leb (deepest vs) 63 }
{
    let mut at: usize = 0;
    let mut depth: usize = 0;
    // The bytes left close every form, so with n left and d forms open no more than (n + d) / 2 are open at once.
    // Kept: only a token tells where the next begins.
    while 128 <= values.len() - at + depth {
        let Ok(token) = atoms::token_at(values, at) else {
            return false;
        };
        match token {
            Token::Opening => {
                if 63 <= depth {
                    return false;
                }
                depth += 1;
                at += 1;
            }
            Token::Closing => {
                depth -= 1;
                at += 1;
            }
            Token::Atom { end, .. } => at = end,
            Token::Unfinished => return false,
        }
    }
    true
}

// The form of the values from `from` up to the top, instead of all from `start` on.
pub fn wrapped(
    w: &mut [u8],
    state: State,
    start: usize,
    from: usize,
    row: usize,
) -> Result<State, Refusal>
    requires fitting { Fitting w.old state × (start ≤ from) }
    requires stand { (vs : Exprs) × Stand w.old from state.top vs × FitsAll vs }
    ensures { (vs : Exprs) → Stand w.old from state.top vs → FitsAll vs → Completed w.old w.new state start row (only (form vs)) result }
{
    let top = state.top;
    if !shallow(&w[from..top]) {
        return Err(Refusal::new(Reason::TooDeep, row));
    }
    let n = top - from + 2;
    let left = state.charged(n, start + n, row)?;
    w.copy_within(from..top, start + 1);
    w[start] = 0x01;
    w[start + n - 1] = 0x02;
    Ok(left)
}

// The bytes of the array that stands at a byte of the workspace, if one does.
fn array_at(w: &[u8], at: usize) -> Option<Range<usize>>
    requires { length w.now ≤ 65536 }
    ensures { result ≡ array_at w.now at }
{
    if w.len() <= at {
        return None;
    }
    match atoms::any_token(w, at) {
        Ok(
            Token::Atom {
                kind: Kind::Array,
                body,
                end,
            },
        ) => Some(body..end),
        _ => None,
    }
}

// Two arrays joined above the top, then moved down to `start`.
fn join_at(
    w: &mut [u8],
    state: State,
    start: usize,
    row: usize,
    a: Range<usize>,
    b: Range<usize>,
) -> Result<State, Refusal>
    requires fitting { Fitting w.old state × (start ≤ state.top) }
    requires in_order { (a.start ≤ a.end) × (a.end ≤ state.top) × (b.start ≤ b.end) × (b.end ≤ state.top) }
    ensures { Completed w.old w.new state start row (only (atom (array (slice a.start a.end w.old ++ slice b.start b.end w.old)))) result }
{
    let first = a.len();
    let k = first + b.len();
    let top = state.top;
    let n = writer::atom_size(Kind::Array, k);
    let left = state.charged(n, start + n, row)?;
    let at = writer::put_head(k, w, top);
    w.copy_within(a, at);
    w.copy_within(b, at + first);
    w.copy_within(top..top + n, start);
    Ok(left)
}

// The join of the two values from `start` up to the top, which are concat's operands.
pub fn joined(w: &mut [u8], state: State, start: usize, row: usize) -> Result<State, Refusal>
    requires fitting { Fitting w.old state }
    requires stand { (a b : Expr) × Stand w.old start state.top (more a (only b)) × FitsAll (more a (only b)) }
    ensures { (a b : Expr) → Stand w.old start state.top (more a (only b)) → FitsAll (more a (only b)) → Joined w.old w.new state start row a b result }
{
    let no_array = Refusal::new(Reason::WrongElements, row);
    let a = array_at(w, start).ok_or(no_array)?;
    let b = array_at(w, a.end).ok_or(no_array)?;
    join_at(w, state, start, row, a, b)
}

// Packs where argument n stands, if n is below 64.
fn put_argument(args: &mut [u32; 64], n: usize, from: usize, to: usize)
    requires { (from < to) × (to ≤ 65536) }
    ensures { args.new ≡ set args.old n (pack from to) }
{
    // Kept: no `get_mut`: tried, and the proof did not close.
    if n < args.len() {
        args[n] = packed::pack(from, to);
    }
}

// Where the values stand whose bytes these are, from byte `base` of the workspace on, and how many they are.
pub fn spread(values: &[u8], base: usize, args: &mut [u32; 64]) -> usize
    requires values_bound { base + length values.now ≤ 65536 }
    requires values_value { (vs : Exprs) × (values.now ≡ canonical vs) × FitsAll vs × (deepest vs ≤ 64) }
    ensures { (w : List ℕ) (vs : Exprs) → slice base (base + length values.now) w ≡ values.now → values.now ≡ canonical vs → FitsAll vs → deepest vs ≤ 64 → (result ≡ size vs) × ArgumentsAt w args.new 0 base (base + length values.now) vs }
{
    let mut at: usize = 0;
    let mut n: usize = 0;
    // Kept: only a value tells where the next begins.
    while at < values.len() {
        let end = reader::expression_end(values, at);
        put_argument(args, n, base + at, base + end);
        n += 1;
        at = end;
    }
    n
}
