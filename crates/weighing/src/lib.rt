// Why no clause fits (document 02, C-19): "the clause that got furthest (lowest number on equal counts)" and the argument at which its
// head fails. A head begins with the word of its predicate and arity; one of another takes no part.
#![tactic(auto)]

ghost use Rattle.std.specs.Prelude.{IfSome, ◌≡◌, [], ◌∷◌, ℕ, ◌<◌, length, get_or};
ghost use Rattle.terms.specs.Node.{Expr};
ghost use Rattle.search.specs.Next.{Clause, Book, clause_at};
ghost use Rattle.search.specs.Fail.{failing};
ghost use Rattle.search.specs.Furthest.{furthest};
ghost use Rattle.words.specs.Held.{GoalIn, ClauseIn, BookOn};
ghost use Rattle.words.specs.HeldLaws.{headed};
ghost use Rattle.weighing.specs.Stuck.{figured, Weighed};
ghost use Rattle.weighing.specs.declared.Figures.{Figures};

use picking::pair;
use words::lists::{find, find_next};
use words::rows::CELLS;
use words::shelf::{HEAD, START, clauses, entry};
use words::{WORDS, word};

// A clause's number, and the argument, from 1, at which its head fails.
#[derive(Clone, Copy)]
pub struct Figures {
    pub clause: usize,
    pub argument: usize,
}

// The argument at which a head of the formula's predicate and arity fails; 0 where it unifies.
fn failing(
    formula: &[u32],
    head: &[u32],
    words: &mut [u32; WORDS],
    rows: &mut [u16; CELLS],
) -> usize
    requires { ((f : Expr) × GoalIn formula.now 1 (f ∷ [])) × ((c : Clause) × (k : ℕ) × ClauseIn head.now k 0 (headed c)) × (get_or head.now 0 0 ≡ get_or formula.now 0 0) }
    ensures { (f : Expr) (c : Clause) (k : ℕ) → GoalIn formula.now 1 (f ∷ []) → ClauseIn head.now k 0 (headed c) → get_or head.now 0 0 ≡ get_or formula.now 0 0 → result ≡ failing f c }
{
    let n = pair(words, formula, head);
    unifier::unify(&words[0..n], rows)
}

// At which argument the head fails that got furthest; 0 where none has failed yet.
fn reached(best: Option<Figures>) -> usize
    ensures { result ≡ (figured best).argument }
{
    match best {
        Some(figures) => figures.argument,
        None => 0,
    }
}

// The better of `best` and the clause number i; `best` on equal counts.
fn weigh(
    formula: &[u32],
    book: &[u32],
    shelf: &[u16],
    i: usize,
    best: Option<Figures>,
    words: &mut [u32; WORDS],
    rows: &mut [u16; CELLS],
) -> Option<Figures>
    requires held { ((f : Expr) × GoalIn formula.now 1 (f ∷ [])) × ((P : Book) × BookOn book.now shelf.now P × (i < length P)) }
    requires fails { IfSome best (λ (b : Figures). 0 < b.argument) }
    ensures weighed { (f : Expr) (P : Book) → GoalIn formula.now 1 (f ∷ []) → BookOn book.now shelf.now P → i < length P → Weighed (figured best) i (failing f (clause_at P i)) (figured result) }
    ensures fails { IfSome result (λ (b : Figures). 0 < b.argument) }
{
    let s = entry(shelf, START, i);
    let e = entry(shelf, HEAD, i);
    let p = word(formula, 0);
    let q = word(book, s);
    if q == p {
        let k = failing(formula, &book[s..e], words, rows);
        let far = reached(best);
        if far < k {
            return Some(Figures {
                clause: i,
                argument: k,
            });
        }
        return best;
    }
    best // another predicate, or another arity
}

// The clause that got furthest; none where no head of the predicate and arity fails.
pub fn furthest(
    formula: &[u32],
    book: &[u32],
    shelf: &[u16],
    words: &mut [u32; WORDS],
    rows: &mut [u16; CELLS],
) -> Option<Figures>
    requires { ((f : Expr) × GoalIn formula.now 1 (f ∷ [])) × ((P : Book) × BookOn book.now shelf.now P) }
    ensures figures { (f : Expr) (P : Book) → GoalIn formula.now 1 (f ∷ []) → BookOn book.now shelf.now P → figured result ≡ furthest P f }
    ensures fails { IfSome result (λ (b : Figures). 0 < b.argument) }
{
    let n = clauses(shelf);
    let mut best = None;
    let u = word(formula, 0);
    let mut i = find(book, shelf, u, 0);
    while i < n {
        best = weigh(formula, book, shelf, i, best, words, rows);
        i = find_next(book, shelf, u, i);
    }
    best
}
