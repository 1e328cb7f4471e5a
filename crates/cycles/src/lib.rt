// Ranks for the classes, each above those of its arguments, in the place of the occurs check: a class on a cycle can have none.
#![tactic(auto)]

ghost use Rattle.std.specs.Prelude.{◌≡◌, [], ◌∷◌, ◌<◌, ◌≤◌, length, get_or};
ghost use Rattle.words.specs.Word.{Valids};
ghost use Rattle.words.specs.Columns.{ROWS, Only, LEFT, RIGHT, RANK};
ghost use Rattle.positions.specs.Classes.{Grouped};
ghost use Rattle.positions.specs.Ranking.{Settled};
ghost use Rattle.positions.specs.Diving.{Searched, Opened};
ghost use Rattle.positions.specs.Tables.{ends, ups, picks, ranks, Search, Found};

use positions::reading::find;
use words::rows::{CELLS, END, LEFT, PICK, RANK, RIGHT, UP, cell, put};
use words::{arity, word};

// The class of the first argument at x that has no rank.
fn lacking(words: &[u32], rows: &[u16; CELLS], x: usize) -> Option<usize>
    requires { (length words.now ≤ ROWS) × Searched words.now (ends words.now rows.now) (ups words.now rows.now) (ranks words.now rows.now) × (x < length words.now) }
    ensures { Opened words.now (ends words.now rows.now) (ups words.now rows.now) (ranks words.now rows.now) x result }
{
    let n = words.len();
    let k = arity(word(words, x));
    let mut c = x + 1;
    for i in 0..k {
        let r = find(rows, n, c);
        let z = cell(rows, RANK, r);
        if z == 0 {
            return Some(r);
        }
        c = cell(rows, END, c);
    }
    None
}

// Ranks for `from` and all that it reaches, from `stamp` on, by a search with a stack; the next rank; none where the search comes back to the stack.
// LEFT is the stack, and RIGHT has the places on it, from 1.
fn dive(words: &[u32], rows: &mut [u16; CELLS], from: usize, stamp: usize) -> Option<usize>
    requires { Search words.now rows.old stamp × (from < length words.now) × (get_or (ups words.now rows.old) from 0 ≡ from) × (get_or (ranks words.now rows.old) from 0 ≡ 0) }
    ensures { Found words.now rows.old from result rows.new × Only (LEFT ∷ RIGHT ∷ RANK ∷ []) rows.old rows.new }
{
    put(rows, LEFT, 0, from);
    put(rows, RIGHT, from, 1);
    let mut top: usize = 1;
    let mut s = stamp;
    while 0 < top {
        let r = cell(rows, LEFT, top - 1);
        let x = cell(rows, PICK, r);
        match lacking(words, rows, x) {
            Some(k) => {
                let z = cell(rows, RIGHT, k);
                if z != 0 {
                    return None;
                }
                put(rows, LEFT, top, k);
                top += 1;
                put(rows, RIGHT, k, top);
            }
            None => {
                put(rows, RANK, r, s);
                s += 1;
                top -= 1;
            }
        }
    }
    Some(s)
}

// The same for r, where r is a root that has no rank yet.
fn visit(words: &[u32], rows: &mut [u16; CELLS], r: usize, stamp: usize) -> Option<usize>
    requires { Search words.now rows.old stamp × (r < length words.now) }
    ensures { Found words.now rows.old r result rows.new × Only (LEFT ∷ RIGHT ∷ RANK ∷ []) rows.old rows.new }
{
    let u = cell(rows, UP, r);
    if u == r {
        let z = cell(rows, RANK, r);
        if z == 0 {
            return dive(words, rows, r, stamp);
        }
        return Some(stamp);
    }
    Some(stamp)
}

// Ranks for the roots, above the roots of their arguments; false where there is a cycle.
pub fn settle(words: &[u32], rows: &mut [u16; CELLS]) -> bool
    requires { Search words.now rows.old 1 }
    ensures { Settled words.now (ends words.now rows.old) (ups words.now rows.old) (picks words.now rows.old) (ranks words.now rows.new) result × Only (LEFT ∷ RIGHT ∷ RANK ∷ []) rows.old rows.new }
{
    let mut s: usize = 1;
    for r in 0..words.len() {
        let Some(next) = visit(words, rows, r, s) else {
            return false;
        };
        s = next;
    }
    true
}
