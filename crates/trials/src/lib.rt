// A trial on the heap: the row, the clause behind it, and what the trial binds; the first clause that fits.
#![tactic(auto)]

ghost use Rattle.std.specs.Prelude.{◌≡◌, ℕ, ◌<◌, ◌≤◌, length, take};
ghost use Rattle.heap.specs.Heap.{Made, Whole};
ghost use Rattle.matching.specs.Unifying.{Low};
ghost use Rattle.matching.specs.TrialLaws.{Free};
ghost use Rattle.terms.specs.Node.{Expr};
ghost use Rattle.search.specs.Next.{Book, Goal, clause_at};
ghost use Rattle.words.specs.Held.{BookOn};
ghost use Rattle.trials.specs.Trying.{Attempted, Fronted, clause_words, Tested, Sought};

use matching::unifying::{Trial, Tried, unify};
use picking::{append, told_apart};
use words::lists::{find, find_next};
use words::rows::CELLS;
use words::shelf::{HEAD, START, clauses, entry};
use words::{WORDS, word};

pub mod resetting; // no variable bound any more

// Two rows on a heap where nothing is bound: equal now, with so many goal variables on the trail; or they can't be made equal; or nothing is
// known. Only where they are equal is anything bound behind it. Attempt (attempts) says besides how much what is bound weighs; a trial by `unify` alone does not know it, so that the two are not one.
#[derive(Clone, Copy)]
pub enum Attempt {
    Fits(usize),
    Clash,
    Tired,
}

// The variables of a clause start here, behind those of goal and answer.
pub const BASE: usize = 8192;

// A trial's start, told from a row that is written, and not from what is held as in `begun` (attempts): it may visit twice as many nodes as the row has, and 32, at most 8,448. What takes longer, such as doubled terms, is the other
// step's.
fn begun(row: usize) -> Trial
    ensures { (k : ℕ) × (k ≤ 8448) × (result ≡ record { base = 8192; start = row; count = 0; fuel = k }) }
{
    Trial {
        base: BASE,
        start: row,
        count: 0,
        fuel: 2 * row.min(4208) + 32,
    }
}

// The rows at 0 and at q, where the clause stands behind the row.
fn try_rows(heap: &[u32], cells: &mut [u16], rows: &mut [u16; CELLS], q: usize) -> Attempt
    requires { Made heap.now cells.old × Free cells.old × (length cells.old ≡ 8256) × Whole heap.now 1 0 × Whole heap.now 1 q × Low heap.now 8192 q }
    ensures { Attempted heap.now q cells.new rows.new result }
{
    let mut levels = [0u16; 514];
    let mut stack = [0u16; 387];
    let t = begun(q);
    match unify(
        heap,
        cells,
        &mut rows[16512..24960],
        &mut levels,
        &mut stack,
        t,
        0,
        q,
    ) {
        Tried::Fits(count, _) => Attempt::Fits(count),
        Tried::Clash(count) => {
            resetting::release(cells, rows, count);
            Attempt::Clash
        }
        Tried::Tired(count) => {
            resetting::release(cells, rows, count);
            Attempt::Tired
        }
    }
}

// The clause number i, put behind the row, which is the first n words and begins with a formula of m.
fn try_clause(
    book: &[u32],
    shelf: &[u16],
    words: &mut [u32; WORDS],
    n: usize,
    m: usize,
    i: usize,
    cells: &mut [u16],
    rows: &mut [u16; CELLS],
) -> Attempt
    requires cells_len { (length cells.old ≡ 8256) × Free cells.old }
    requires fronted { ((P : Book) × BookOn book.now shelf.now P × (i < length P)) × ((f : Expr) × (g : Goal) × (a : Goal) × Fronted words.old n m f g a) }
    ensures row { take n words.new ≡ take n words.old }
    ensures tested { (P : Book) (f : Expr) (g a : Goal) → BookOn book.now shelf.now P → i < length P → Fronted words.old n m f g a → Tested f (clause_at P i) (take n words.old) (clause_words book.now shelf.now (length P) i) words.new cells.new rows.new n result }
{
    let s = entry(shelf, START, i);
    let e = entry(shelf, HEAD, i);
    if told_apart(&words[0..m], &book[s..e]) {
        return Attempt::Clash;
    }
    let t = entry(shelf, START, i + 1);
    let r = append(words, n, &book[s..t], 8192);
    try_rows(&words[0..r], cells, rows, n)
}

// A clause that fits, by its number, and how many goal variables its trial has bound.
#[derive(Clone, Copy)]
pub struct Found {
    pub clause: usize,
    pub count: usize,
}

// The first clause whose head unifies with the row's first formula; none where nothing is known. `first_fit` (attempts) is another search: it passes clauses over by the goal's first argument, leaves
// facts untried, and keeps what was bound before.
pub fn first_fit(
    book: &[u32],
    shelf: &[u16],
    words: &mut [u32; WORDS],
    n: usize,
    m: usize,
    cells: &mut [u16],
    rows: &mut [u16; CELLS],
) -> Option<Found>
    requires cells_len { (length cells.old ≡ 8256) × Free cells.old }
    requires fronted { ((P : Book) × BookOn book.now shelf.now P) × ((f : Expr) × (g : Goal) × (a : Goal) × Fronted words.old n m f g a) }
    ensures { (P : Book) (f : Expr) (g a : Goal) → BookOn book.now shelf.now P → Fronted words.old n m f g a → Sought P f book.now shelf.now (take n words.old) words.new cells.new rows.new n result }
{
    let all = clauses(shelf);
    let u = word(words, 0);
    let mut i = find(book, shelf, u, 0);
    while i < all {
        match try_clause(book, shelf, words, n, m, i, cells, rows) {
            Attempt::Fits(count) => return Some(Found { clause: i, count }),
            Attempt::Clash => i = find_next(book, shelf, u, i),
            Attempt::Tired => return None,
        }
    }
    None
}
