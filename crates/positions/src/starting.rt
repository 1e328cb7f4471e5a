// Where terms end, and the first classes: each position alone, but the occurrences of a variable together.
ghost use Rattle.std.specs.Prelude.{◌≡◌, [], ◌∷◌, ℕ, ◌+◌, ◌<◌, ◌≤◌, length};
ghost use Rattle.words.specs.Columns.{ROWS, column, Only, END, UP, PICK, FIRST};
ghost use Rattle.positions.specs.Words.{walk_of, Whole, Ends};
ghost use Rattle.positions.specs.Starting.{Worded, Slots};
ghost use Rattle.positions.specs.Tables.{ends, ups, picks, firsts};

use words::rows::{CELLS, END, FIRST, PICK, UP, cell, put};
use words::{arity, word};

// The position k terms after `from`, of n positions.
fn walk(rows: &[u16; CELLS], n: usize, from: usize, k: usize) -> usize
    requires { (n ≤ ROWS) × ((i : ℕ) → i < k → walk_of (column END n rows.now) i from < n) }
    ensures { result ≡ walk_of (column END n rows.now) k from }
{
    let mut c = from;
    for i in 0..k {
        c = cell(rows, END, c);
    }
    c
}

// Where the term at each position ends, from the last position to the first.
pub fn ends(words: &[u32], rows: &mut [u16; CELLS])
    requires { (length words.now ≤ ROWS) × Whole words.now }
    ensures { Ends words.now (ends words.now rows.new) × Only (END ∷ []) rows.old rows.new }
{
    let n = words.len();
    for p in (0..n).rev() {
        let k = arity(word(words, p));
        let e = walk(rows, n, p + 1, k);
        put(rows, END, p, e);
    }
}

// The position p in its first class: a variable's with the variable's first occurrence. What the rows hold at the start may be anything.
fn seat(words: &[u32], rows: &mut [u16; CELLS], p: usize)
    requires { Worded words.now ROWS × (p < length words.now) × Slots words.now (ups words.now rows.old) (picks words.now rows.old) (firsts rows.old) p }
    ensures { Slots words.now (ups words.now rows.new) (picks words.now rows.new) (firsts rows.new) (p + 1) × Only (UP ∷ PICK ∷ FIRST ∷ []) rows.old rows.new }
{
    put(rows, PICK, p, p);
    let w = word(words, p);
    let kind = w / 16777216;
    if kind == 1 {
        let v = (w % 65536) as usize;
        let q = cell(rows, FIRST, v);
        if q < p {
            let u = word(words, q);
            if u == w {
                put(rows, UP, p, q);
                return;
            }
            put(rows, FIRST, v, p);
            put(rows, UP, p, p);
            return;
        }
        put(rows, FIRST, v, p);
        put(rows, UP, p, p);
        return;
    }
    put(rows, UP, p, p);
}

// Each position in a class of its own, but the occurrences of a variable in one.
pub fn start(words: &[u32], rows: &mut [u16; CELLS])
    requires { Worded words.now ROWS }
    ensures { Slots words.now (ups words.now rows.new) (picks words.now rows.new) (firsts rows.new) (length words.now) × Only (UP ∷ PICK ∷ FIRST ∷ []) rows.old rows.new }
{
    for p in 0..words.len() {
        seat(words, rows, p);
    }
}
