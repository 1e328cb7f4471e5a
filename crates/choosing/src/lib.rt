// The first clause whose head unifies with a formula, in words.
#![tactic(auto)]

ghost use Rattle.std.specs.Prelude.{MatchOption, [], ◌∷◌, ℕ, ◌<◌, ◌≤◌, length};
ghost use Rattle.terms.specs.Node.{Expr};
ghost use Rattle.search.specs.Next.{Book};
ghost use Rattle.words.specs.Held.{GoalIn, BookOn};
ghost use Rattle.picking.specs.Picking.{head_at, Matched, Picked};

use picking::{argue, conclude, set_up};
use words::lists::{find, find_next};
use words::rows::{CELLS, END, cell};
use words::shelf::clauses;
use words::{WORDS, arity, word};

// The first clause from the number `from` on whose head unifies with the formula, by its number.
// "The trial of one head stops at its first clash": most heads that clash cost a comparison or two, and those of other predicates none but on the same
// list (document 02, C-22).
// With the shelf cut behind the clause number k and `from` k, that clause alone is tried.
pub fn pick(
    formula: &[u32],
    book: &[u32],
    shelf: &[u16],
    from: usize,
    words: &mut [u32; WORDS],
    rows: &mut [u16; CELLS],
) -> Option<usize>
    requires { ((f : Expr) × GoalIn formula.now 1 (f ∷ [])) × ((P : Book) × BookOn book.now shelf.now P × (from ≤ length P)) }
    ensures { (f : Expr) (P : Book) → GoalIn formula.now 1 (f ∷ []) → BookOn book.now shelf.now P → MatchOption result (Picked f P from (length P)) (λ i. Picked f P from i × (i < length P) × Matched formula.now (head_at book.now shelf.now (length P) i) words.new rows.new) }
{
    let n = clauses(shelf);
    let u = word(formula, 0);
    let k = arity(u);
    let mut i = find(book, shelf, u, from);
    'clauses: loop {
        if n <= i {
            break None;
        }
        let Some(t) = set_up(formula, book, shelf, i, words, rows) else {
            i = find_next(book, shelf, u, i); // told apart
            continue 'clauses;
        };
        let mut c = 1;
        let mut d = formula.len() + 1;
        for j in 0..k {
            if !argue(words, t, rows, c, d) {
                i = find_next(book, shelf, u, i); // a clash
                continue 'clauses;
            }
            c = cell(rows, END, c);
            d = cell(rows, END, d);
        }
        if conclude(words, t, rows) {
            break Some(i);
        }
        i = find_next(book, shelf, u, i); // a cycle
    }
}
