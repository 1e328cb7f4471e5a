// The heap: rows of words that only grow, and a table of what variables are bound to. A row is a term or a formula in prefix form, a word to a
// node. The table has for each variable the position after that of its row, or 0.
#![tactic(auto)]

ghost use Rattle.std.specs.Prelude.{◌≡◌, suc, ◌+◌, ◌%◌, ◌<◌, length, IfSome, IfNone};
ghost use Rattle.words.specs.Word.{Valids};
ghost use Rattle.heap.specs.Heap.{rows, Whole, bound, Made};
ghost use Rattle.heap.specs.Following.{Followed};

use words::{arity, get, word};

pub mod walking; // from node to node, through bindings
pub mod writing; // written out, numbered by first appearance

// Words below this are variables' words.
pub const SYMBOL: u32 = 0x200_0000;

// A variable's number.
pub fn id(u: u32) -> usize
    ensures { (result ≡ u % 65536) × (result < 65536) }
{
    (u % 65536) as usize
}

// The position of the row that the variable v is bound to; None where it is not bound.
pub fn row_of(cells: &[u16], v: usize) -> Option<usize>
    requires { v < length cells.now }
    ensures bound { IfSome result (λ p. bound cells.now v ≡ suc p) }
    ensures free { IfNone result (bound cells.now v ≡ 0) }
{
    get(cells, v).checked_sub(1)
}

// Past bound variables: the position of a symbol, or of a variable that is not bound.
pub fn follow(heap: &[u32], cells: &[u16], p: usize) -> usize
    requires { Made heap.now cells.now × (p < length heap.now) }
    ensures { Followed heap.now cells.now p result }
{
    let mut at = p;
    loop {
        let u = word(heap, at);
        if SYMBOL <= u {
            return at;
        }
        let Some(row) = row_of(cells, id(u)) else {
            return at;
        };
        at = row;
    }
}

// Where the row at p ends.
pub fn past(heap: &[u32], p: usize) -> usize
    requires { Valids heap.now × Whole heap.now 1 p × (length heap.now < 65536) }
    ensures { result ≡ p + length (rows heap.now 1 p) }
{
    let mut due = 1;
    let mut at = p;
    while 0 < due {
        let u = word(heap, at);
        due = due - 1 + arity(u);
        at += 1;
    }
    at
}
