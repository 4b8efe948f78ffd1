// A flat list: its operators are linked to the row behind their operands, and the result is judged.
ghost use Rattle.std.specs.Prelude.{◌≡◌, List, true, ℕ, Some, None};
ghost use Rattle.spec.specs.Expr.{when◌then◌else◌};
ghost use Rattle.spec.specs.Nodes.{Node as Expression, Nodes};
ghost use Rattle.spec.specs.Bytecode.{Operator as Listed, short};
ghost use Rattle.spec.proofs.Flat.{refusal};
ghost use Rattle.rows.specs.Rows.{WrittenAll};
ghost use Rattle.bytecode.specs.Numbers.{Changed};
ghost use Rattle.bytecode.specs.Gathered.{refusal_of, SameMarks, beyond, lacks, GatheredAt, FlatAt, IsPiece, judged};

use crate::arities::Arities;
use crate::{heights, numbers};
use atoms::Reason;
use rows::forms::{Form, Node};
use rows::table;
use rows::words::Core;

// The row behind n expressions, if there are as many.
fn skip(table: &[u32], first: usize, end: usize, n: usize) -> Option<usize>
    requires { (s : List ℕ) × (es : Nodes) × WrittenAll s table.now first end es }
    ensures { (s : List ℕ) (es : Nodes) → WrittenAll s table.now first end es → result ≡ (when lacks n es then None else Some (beyond table.now n first)) }
{
    let mut row = first;
    for _ in 0..n {
        if end <= row {
            return None;
        }
        row = table::next(table, row);
    }
    Some(row)
}

// Links the operators of a flat list, or refuses it where one is short of operands.
fn gather(s: &[u8], table: &mut [u32], arities: Arities, flat: Form) -> Result<(), Reason>
    requires { (os : List Listed) × (es : Nodes) × FlatAt s.now table.old arities flat.first flat.end os es }
    ensures { Changed table.old table.new flat.first flat.end × SameMarks table.old table.new
        × ((os : List Listed) (es : Nodes) → FlatAt s.now table.old arities flat.first flat.end os es
        → (refusal_of result ≡ (when short os 0 es then 22 else 0)) × (refusal_of result ≡ 0 → GatheredAt table.new os 0 flat.first es)) }
{
    let end = flat.end;
    let mut row = flat.first;
    // Kept: a `while`, since only an expression's row tells where the next begins.
    while row < end {
        let next = table::next(table, row);
        match arities.arity(s, table, row) {
            None => row = next,
            Some(arity) => {
                let behind = skip(table, next, end, arity).ok_or(Reason::WrongBytecode)?;
                numbers::put_link(table, row, behind);
                row = behind;
            }
        }
    }
    Ok(())
}

// Whether a result is refused, and why.
fn judge(s: &[u8], table: &[u32], res: Node) -> Result<(), Reason>
    requires { (e : Expression) × IsPiece s.now table.now res e }
    ensures { (e : Expression) → IsPiece s.now table.now res e → refusal_of result ≡ judged e }
{
    let Node::Branch(form) = res else {
        return Ok(());
    };
    if Core::is_reserved(form.head_key(s, table)) {
        return Err(Reason::WrongBytecode);
    }
    if heights::is_deep(table, form) {
        return Err(Reason::TooDeep);
    }
    Ok(())
}

// Transforms a flat list, or refuses its form.
pub fn unflatten(s: &[u8], table: &mut [u32], arities: Arities, flat: Form) -> Result<(), Reason>
    requires { (flat.flat ≡ true) × ((os : List Listed) × (es : Nodes) × FlatAt s.now table.old arities flat.first flat.end os es) }
    ensures { Changed table.old table.new flat.first flat.end × SameMarks table.old table.new
        × ((place : ℕ) (os : List Listed) (es : Nodes) → FlatAt s.now table.old arities flat.first flat.end os es
        → (refusal_of result ≡ refusal place os es) × (refusal_of result ≡ 0 → GatheredAt table.new os 0 flat.first es)) }
{
    gather(s, table, arities, flat)?;
    judge(s, table, flat.result(table))
}
