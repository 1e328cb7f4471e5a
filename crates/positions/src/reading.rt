// What is read of classes: the position of a variable, and the root of a position's class.
ghost use Rattle.std.specs.Prelude.{◌≡◌, ◌<◌, ◌≤◌, get_or};
ghost use Rattle.words.specs.Columns.{ROWS, column, UP};
ghost use Rattle.positions.specs.Classes.{root, Down};
ghost use Rattle.positions.specs.Tables.{firsts};

use words::rows::{CELLS, FIRST, ROWS, UP, cell};

// The position that the rows have for the variable v; 0 past the last row.
pub fn first_of(rows: &[u16; CELLS], v: usize) -> usize
    ensures { result ≡ get_or (firsts rows.now) v 0 }
{
    if v < ROWS {
        return cell(rows, FIRST, v);
    }
    0
}

// The root of a position's class, of n positions.
pub fn find(rows: &[u16; CELLS], n: usize, start: usize) -> usize
    requires { (n ≤ ROWS) × (start < n) × Down (column UP n rows.now) }
    ensures { result ≡ root (column UP n rows.now) start }
{
    let mut p = start;
    let mut q = cell(rows, UP, p);
    while q < p {
        p = q;
        q = cell(rows, UP, p);
    }
    p
}
