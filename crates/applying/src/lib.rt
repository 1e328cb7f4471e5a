// One clause applied: the body in the place of the goal's first formula, under the most general unifier of that formula and the head that `pick` has left;
// and the answer behind the goal under the same unifier (document 02, C-11).
#![tactic(auto)]

ghost use Rattle.std.specs.Prelude.{◌≡◌, [], ◌∷◌, ◌+◌, ◌-◌, ◌≤◌, length, take, drop};
ghost use Rattle.terms.specs.Node.{Expr};
ghost use Rattle.terms.specs.Subst.{apply};
ghost use Rattle.search.specs.Next.{Clause, Goal};
ghost use Rattle.words.specs.Columns.{WORDS, Only, STACK};
ghost use Rattle.words.specs.Word.{nodes, Valids, Fits};
ghost use Rattle.numbering.specs.Naming.{NAMES};
ghost use Rattle.positions.specs.Tables.{SolvedIn, solution_in};
ghost use Rattle.picking.specs.Picking.{Matched};
ghost use Rattle.applying.specs.Applying.{Built, Wrote, Stage, Staged, Applied, too_big, sizes};

use words::rows::CELLS;
use words::{OUT, WORDS};

// What stands in the place of a number of words: it does not fit.
pub const FULL: usize = 65535;

// How a row and a clause are cut: the row's goal has `goal` words, and its first formula `first` of them; the clause's head has `head` words. The next
// goal has `formulas` formulas.
#[derive(Clone, Copy)]
pub struct Cut {
    pub goal: usize,
    pub first: usize,
    pub head: usize,
    pub formulas: usize,
}

// How many words the next goal has, and behind it the next answer; FULL for what does not fit.
#[derive(Clone, Copy)]
pub struct Sizes {
    pub goal: usize,
    pub answer: usize,
}

// Behind the first formula and the head: the body, and the rest of the row, moved past the clause's variables; where they end.
fn build(words: &mut [u32; WORDS], row: &[u32], m: usize, clause: &[u32], k: usize) -> usize
    requires { (m ≤ length row.now) × (length row.now ≤ 8192) × (k ≤ length clause.now) × (length clause.now ≤ 256) × Valids row.now × Valids clause.now }
    ensures { Built words.old row.now m clause.now k words.new result }
{
    let b = picking::append(words, m + k, &clause[k..], 0);
    picking::append(words, b, &row[m..], 64)
}

// What stands in `words` from s to n, under the solution of the first p, put into `out` from `at` on: how many words, or FULL where they are over 4,096.
fn instance(
    words: &[u32; WORDS],
    p: usize,
    s: usize,
    n: usize,
    rows: &mut [u16; CELLS],
    out: &mut [u32; OUT],
    at: usize,
) -> usize
    requires cuts { (p ≤ n) × (s ≤ n) × (n ≤ WORDS) × (at ≤ 4096) }
    requires fits { Fits NAMES (take n words.now) × SolvedIn (take p words.now) rows.old }
    ensures written { Wrote NAMES out.old at (apply (solution_in (take p words.now) rows.old) (nodes (take (n - s) (drop s words.now)))) out.new result }
    ensures kept { Only (STACK ∷ []) rows.old rows.new }
{
    let end = at + 4096;
    unifier::instantiate(&words[0..p], rows, &words[s..n], &mut out[at..end])
}

fn too_big() -> Sizes
    ensures { result ≡ too_big }
{
    Sizes {
        goal: FULL,
        answer: 0,
    }
}

fn both(goal: usize, answer: usize) -> Sizes
    ensures { result ≡ sizes goal answer }
{
    Sizes { goal, answer }
}

// The goal that follows by the clause, and behind it the answer.
pub fn apply(
    row: &[u32],
    clause: &[u32],
    cut: Cut,
    words: &mut [u32; WORDS],
    rows: &mut [u16; CELLS],
    out: &mut [u32; OUT],
) -> Sizes
    requires { Staged row.now clause.now cut × Matched (take cut.first row.now) (take cut.head clause.now) words.old rows.old }
    ensures { (f : Expr) (g a : Goal) (c : Clause) → Stage row.now clause.now cut f g a c → Applied f g a c cut.formulas out.new result }
{
    let all = build(words, row, cut.first, clause, cut.head);
    let p = cut.first + cut.head;
    let behind = cut.goal + clause.len();
    let goal = instance(words, p, p, behind, rows, out, 0);
    if goal == FULL {
        return too_big();
    }
    if 512 < cut.formulas {
        return too_big();
    }
    let answer = instance(words, p, behind, all, rows, out, goal);
    if answer == FULL {
        return both(goal, FULL);
    }
    numbering::renumber(out, rows, goal + answer);
    both(goal, answer)
}
