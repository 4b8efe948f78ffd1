// Trees of references by the bits of their keys, the lowest first, so that a search has at most one turn more than a key has bits. The second
// child of a row is the first reference of its tree; a reference's children lead to those with a bit of 0 and of 1.
// Kept: rows, no boxes and no map: there is no heap, and the rows have room for it in the table.
ghost use Rattle.std.specs.Prelude.{ℕ};
ghost use Rattle.bytecode.specs.Named.{Tree, Sought};

use crate::numbers;
use rows::table;

// Where a reference would be put: as which child of which row.
#[derive(Clone, Copy, Debug, PartialEq, Eq)]
pub struct Vacancy {
    pub row: usize,
    pub bit: usize,
}

// Searches by key: the row of the reference with that key, or else where it would be put.
pub fn seek(s: &[u8], table: &[u32], tree: usize, key: u32) -> Result<usize, Vacancy>
    requires { (to : ℕ) × (node : ℕ → ℕ) × Tree s.now table.now tree to node }
    ensures { Sought s.now table.now tree key result }
{
    let mut bits = key;
    let mut at = Vacancy { row: tree, bit: 1 };
    loop {
        let row = numbers::child(table, at.row, at.bit);
        if row == 0 {
            return Err(at);
        }
        if table::key(s, table, row) == key {
            return Ok(row);
        }
        at = Vacancy {
            row,
            // Kept: `as`, for which there is no `From`.
            bit: (bits % 2) as usize,
        };
        bits /= 2;
    }
}
