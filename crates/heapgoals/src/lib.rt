// A goal that stays on the heap from step to step, with its answer: what stands where, and how large it is at most.
#![tactic(auto)]

ghost use Rattle.std.specs.Prelude.{◌≡◌, List, ◌∷◌, ℕ, ◌≤◌, length};
ghost use Rattle.terms.specs.Node.{Expr};
ghost use Rattle.search.specs.Next.{Goal};
ghost use Rattle.words.specs.Word.{Valids, nodes};
ghost use Rattle.bounds.specs.Places.{places};
ghost use Rattle.heapgoals.specs.Holding.{Holds};
ghost use Rattle.heapgoals.specs.Rows.{Sided, Clean, Cleared};

use bounds::one_if_variable;

pub mod telling; // a row told apart from a saved formula
pub mod writing; // what is held, written out

// `due` rows of the goal from the position `at` on, and behind them those of `depth` levels, the last first, as a walk has them; how many formulas these are, and the
// answer's rows. How many words of the heap are in use, and from which number on variables are new. Goal and answer have at most `nodes` and `found` nodes, `variables` of these are
// variables, and no variable is there more than `most` times; the first formula has `least` nodes at least.
#[derive(Clone, Copy)]
pub struct Standing {
    pub at: usize,
    pub due: usize,
    pub depth: usize,
    pub formulas: usize,
    pub answer: usize,
    pub answers: usize,
    pub top: usize,
    pub base: usize,
    pub nodes: usize,
    pub found: usize,
    pub variables: usize,
    pub most: usize,
    pub least: usize,
}

// How many of the words are variables'.
fn variables_in(words: &[u32]) -> usize
    requires { Valids words.now × (length words.now ≤ 8192) }
    ensures { result ≡ places (nodes words.now) }
{
    let mut n = 0;
    for u in words {
        n += one_if_variable(*u);
    }
    n
}

// Of a row, a goal with its answer behind it: how many words are the goal's and how many its first formula's, how many formulas goal and answer have.
#[derive(Clone, Copy)]
pub struct Sides {
    pub words: usize,
    pub first: usize,
    pub formulas: usize,
    pub answers: usize,
}

// A row that is written, at the front of the heap. It is numbered by first appearance, so that it has fewer variables than words.
pub fn stand(row: &[u32], x: Sides) -> Standing
    requires { (f : Expr) × (g : Goal) × (a : Goal) × Sided row.now x f g a }
    ensures held { (f : Expr) (g a : Goal) → Sided row.now x f g a → (words cells levels : List ℕ) → Clean row.now words cells levels → Holds words cells levels result (f ∷ g) a }
    ensures top { result.top ≡ length row.now }
{
    let variables = variables_in(row);
    Standing {
        at: 0,
        due: x.formulas,
        depth: 0,
        formulas: x.formulas,
        answer: x.words,
        answers: x.answers,
        top: row.len(),
        base: row.len(),
        nodes: x.words,
        found: row.len() - x.words,
        variables,
        most: variables,
        least: x.first,
    }
}

// The cells from a place on, up to another, bound to nothing.
pub fn clear(cells: &mut [u16], from: usize, to: usize)
    requires { (from ≤ to) × (to ≤ length cells.old) }
    ensures { Cleared cells.old from to cells.new }
{
    cells[from..to].fill(0);
}
