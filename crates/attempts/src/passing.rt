// Clauses that the goal's first argument passes over: the symbol it begins with is found once in a step, and a clause whose head has another symbol there is
// not put on the heap at all.
ghost use Rattle.std.specs.Prelude.{ℕ, ◌<◌, IsSome};
ghost use Rattle.search.specs.Next.{Book};
ghost use Rattle.words.specs.Word.{arity_of};
ghost use Rattle.words.specs.Held.{BookOn};
ghost use Rattle.words.specs.Lists.{Found};
ghost use Rattle.heap.specs.Heap.{Made, Whole};
ghost use Rattle.attempts.specs.Passing.{Lead, Hopeful};

use heap::{SYMBOL, follow};
use words::lists::find_next;
use words::shelf::{START, clauses, entry};
use words::{arity, word};

// The symbol that the first argument of the row at a position begins with; none where it has no argument, or a variable that is not bound.
pub fn lead(heap: &[u32], cells: &[u16], at: usize) -> Option<u32>
    requires { Made heap.now cells.now × Whole heap.now 1 at }
    ensures { Lead heap.now cells.now at result }
{
    if arity(word(heap, at)) == 0 {
        return None;
    }
    let x = word(heap, follow(heap, cells, at + 1));
    if x < SYMBOL {
        return None;
    }
    Some(x)
}

// From the clause number `from` on, the first whose head begins with u and has no other symbol than the one known behind it. The answer is how many
// clauses there are where none is left: so the lists end in storage, and so `find` and `find_next` answer.
pub fn hopeful(book: &[u32], shelf: &[u16], u: u32, known: Option<u32>, from: usize) -> usize
    requires { (IsSome known → 0 < arity_of u) × ((P : Book) × (q : ℕ) × BookOn book.now shelf.now P × Found book.now shelf.now P u q from) }
    ensures { (P : Book) (q : ℕ) → BookOn book.now shelf.now P → Found book.now shelf.now P u q from → Hopeful book.now shelf.now P u known q result }
{
    let Some(x) = known else {
        return from;
    };
    let all = clauses(shelf);
    let mut i = from;
    while i < all {
        let b = entry(shelf, START, i);
        let y = word(book, b + 1);
        if y < SYMBOL {
            return i;
        }
        if y == x {
            return i;
        }
        i = find_next(book, shelf, u, i);
    }
    i
}
