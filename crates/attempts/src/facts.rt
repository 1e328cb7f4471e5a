// Facts that need no trial.
ghost use Rattle.std.specs.Prelude.{◌≡◌, true, List, ◌∷◌, ℕ, ◌<◌, ◌≤◌, length};
ghost use Rattle.terms.specs.Node.{Expr};
ghost use Rattle.search.specs.Next.{Book, Goal, clause_at};
ghost use Rattle.words.specs.Held.{BookOn};
ghost use Rattle.heapgoals.specs.Holding.{Holds};
ghost use Rattle.attempts.specs.Facts.{SameWords, Given};

use heap::SYMBOL;
use heapgoals::Standing;
use words::shelf::{BODY, HEAD, START, entry};
use words::word;

// Whether the row at a position begins with these words, all of them symbols'.
fn stands(heap: &[u32], at: usize, head: &[u32]) -> bool
    requires { (at ≤ length heap.now) × (length heap.now < 65536) }
    ensures { result ≡ true → SameWords heap.now at head.now (length head.now) }
{
    if heap.len() - at < head.len() {
        return false;
    }
    for (i, u) in head.iter().enumerate() {
        if *u < SYMBOL {
            return false;
        }
        if *u != word(heap, at + i) {
            return false;
        }
    }
    true
}

// Whether the clause number i is a fact, and the goal's first formula is that fact word for word.
pub fn is_given(book: &[u32], shelf: &[u16], words: &[u32], s: Standing, i: usize) -> bool
    requires book_on { (P : Book) × BookOn book.now shelf.now P × (i < length P) }
    requires by_index { (cells : List ℕ) × (levels : List ℕ) × (f : Expr) × (g : Goal) × (a : Goal) × Holds words.now cells levels s (f ∷ g) a }
    ensures { result ≡ true → (P : Book) (cells levels : List ℕ) (f : Expr) (g a : Goal) → BookOn book.now shelf.now P → i < length P → Holds words.now cells levels s (f ∷ g) a → Given f (clause_at P i) }
{
    if 0 < entry(shelf, BODY, i) {
        return false;
    }
    let b = entry(shelf, START, i);
    let e = entry(shelf, HEAD, i);
    let top = s.top;
    stands(&words[0..top], s.at, &book[b..e])
}
