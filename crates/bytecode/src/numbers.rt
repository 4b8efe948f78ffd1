// The numbers of a row besides its own. They stand in the table above these, only while a stream is evaluated.
ghost use Rattle.std.specs.Prelude.{◌≡◌, List, ℕ, ◌+◌, ◌*◌, ◌%◌, ◌≤◌, ◌<◌, length, set};
ghost use Rattle.spec.specs.Reading.{row_width};
ghost use Rattle.rows.specs.Rows.{RowInside, cell, mark, mark as mark_of, link, link as link-of};
ghost use Rattle.bytecode.specs.Numbers.{child as child-of, Changed};

use reader::ROW_WIDTH;

// Kept: 0 for no child, and no `Option`, as the table has it; `as`, where there is no `From`.

// A row's first number is its kind, and MARK times its mark, and LINK times its link.
const MARK: u32 = 256;

const LINK: u32 = 32768;

// A row has two children, in its first two numbers CHILD times; the first stands in the link's place.
const CHILD: u32 = 65536;

// Number j of a row keeps what is below UNIT, and has `count` times UNIT above.
fn put_above<const UNIT: u32>(table: &mut [u32], row: usize, j: usize, count: u32)
    requires { RowInside table.old row × (j < 2) × (0 < UNIT) × (count * UNIT + UNIT ≤ 4294967296) }
    ensures { table.new ≡ set table.old (row_width * row + j) (count * UNIT + cell table.old row j % UNIT) }
{
    let at = ROW_WIDTH * row + j;
    table[at] = count * UNIT + table[at] % UNIT;
}

pub fn put_mark(table: &mut [u32], row: usize, mark: u32)
    requires { RowInside table.old row × (mark < 128) }
    ensures { Changed table.old table.new row (row + 1) × (mark_of table.new row ≡ mark) × (link table.new row ≡ link table.old row) × (child-of table.new 1 row ≡ child-of table.old 1 row) }
{
    let link = table[ROW_WIDTH * row] / LINK;
    put_above::<MARK>(table, row, 0, link * 128 + mark);
}

pub fn put_link(table: &mut [u32], row: usize, link: usize)
    requires { RowInside table.old row × (link ≤ 65536) }
    ensures { Changed table.old table.new row (row + 1) × (link-of table.new row ≡ link) × (mark table.new row ≡ mark table.old row) × (child-of table.new 1 row ≡ child-of table.old 1 row) }
{
    put_above::<LINK>(table, row, 0, link as u32);
}

pub fn child(table: &[u32], row: usize, bit: usize) -> usize
    requires { RowInside table.now row × (bit < 2) }
    ensures { result ≡ child-of table.now bit row }
{
    (table[ROW_WIDTH * row + bit] / CHILD) as usize
}

pub fn put_child(table: &mut [u32], row: usize, bit: usize, child: usize)
    requires { RowInside table.old row × (bit < 2) × (child < 65536) }
    ensures { Changed table.old table.new row (row + 1) × (child-of table.new bit row ≡ child) × (mark table.new row ≡ mark table.old row)
        × ((b : ℕ) → b < 2 → (b ≡ bit → ⊥) → child-of table.new b row ≡ child-of table.old b row) × (bit ≡ 1 → link table.new row ≡ link table.old row) }
{
    put_above::<CHILD>(table, row, bit, child as u32);
}

// The rows as they were read.
pub fn clear(table: &mut [u32], rows: usize)
    requires { row_width * rows ≤ length table.old }
    ensures { (t : List ℕ) → Changed t table.old 0 rows → ((r : ℕ) → r < rows → (cell t r 0 < 256) × (cell t r 1 < 65536)) → table.new ≡ t }
{
    for row in 0..rows {
        let at = ROW_WIDTH * row;
        table[at] = table[at] % MARK;
        table[at + 1] = table[at + 1] % CHILD;
    }
}
