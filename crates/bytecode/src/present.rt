// Whether a stream has a reference to `prefix*`, without which it has no bytecode.
ghost use Rattle.std.specs.Prelude.{◌≡◌, true, false};
ghost use Rattle.spec.specs.Nodes.{Node, Nodes};
ghost use Rattle.spec.specs.Bytecode.{prefix*, is_name};
ghost use Rattle.spec.proofs.Unchanged.{UnnamedAll};
ghost use Rattle.rows.specs.Rows.{WrittenAt, WrittenAll};
ghost use Rattle.bytecode.specs.Scanned.{StarAmong};

use atoms::Kind;
use rows::table;

// Whether `prefix*` is at a row. A reference whose first byte is 20 has one more.
fn is_star(s: &[u8], table: &[u32], row: usize) -> bool
    requires { (e : Node) × WrittenAt s.now table.now row e }
    ensures { (e : Node) → WrittenAt s.now table.now row e → result ≡ is_name prefix* e }
{
    if !table::has_kind(table, row, Kind::Reference) {
        return false;
    }
    let at = table::start(table, row);
    s[at] == 0x20 && s[at + 1] == 0x31
}

// Whether `prefix*` is at a row from `first` on, of so many.
pub fn is_present(s: &[u8], table: &[u32], first: usize, rows: usize) -> bool
    requires { (es : Nodes) × WrittenAll s.now table.now first rows es }
    ensures { (result ≡ true → StarAmong s.now table.now first rows)
        × ((es : Nodes) → WrittenAll s.now table.now first rows es → result ≡ false → UnnamedAll es) }
{
    for row in first..rows {
        if is_star(s, table, row) {
            return true;
        }
    }
    false
}
