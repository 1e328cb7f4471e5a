// A clause put behind what is held, and tried on the goal's first formula.
#![tactic(auto)]

ghost use Rattle.std.specs.Prelude.{◌≡◌, List, ◌∷◌, ℕ, ◌+◌, ◌≤◌, length, take};
ghost use Rattle.terms.specs.Node.{Expr};
ghost use Rattle.search.specs.Next.{Clause, Book, Goal};
ghost use Rattle.words.specs.Columns.{WORDS};
ghost use Rattle.words.specs.Held.{ClauseIn, BookOn};
ghost use Rattle.heapgoals.specs.Holding.{Holds};
ghost use Rattle.heapgoals.specs.HoldLaws.{Fore};
ghost use Rattle.attempts.specs.Trying.{IsSetUp, Undoable, Attempted, Tested, Sought};

use crate::facts::is_given;
use crate::passing::{hopeful, lead};
use bounds::Weight;
use heapgoals::{Standing, clear};
use matching::binding::undo;
use matching::fitting::fit;
use matching::unifying::{Trial, Tried};
use picking::append;
use words::lists::{find, find_next};
use words::rows::CELLS;
use words::shelf::{HEAD, START, clauses, entry};
use words::word;

pub mod passing; // clauses that the goal's first argument passes over
pub mod facts; // facts that need no trial

// The two are equal now, with so many goal variables on the trail, each of which stands for so much at most, where that is known; or they can't be made equal; or nothing is known. Only where
// they are equal is more bound than before.
#[derive(Clone, Copy)]
pub enum Attempt {
    Fits(usize, Option<Weight>),
    Clash,
    Tired,
}

// It may visit twice as many nodes as the goal has, and 32.
fn begun(s: Standing) -> Trial
    requires { s.nodes ≤ 4096 }
    ensures { (k : ℕ) × (k ≤ 8224) × (result ≡ record { base = s.base; start = s.top; count = 0; fuel = k }) }
{
    Trial {
        base: s.base,
        start: s.top,
        count: 0,
        fuel: s.nodes + s.nodes + 32,
    }
}

// What a trial has bound is not bound any more, and the cells are as before, whatever was bound then. `release` (trials) promises of nothing bound before that nothing is; one for both would
// have to promise both.
pub fn release(cells: &mut [u16], rows: &[u16; CELLS], base: usize, count: usize)
    requires { (length cells.old ≡ 8256) × (base ≤ 8192) × ((before : List ℕ) × Undoable before cells.old rows.now base count) }
    ensures { (before : List ℕ) → Undoable before cells.old rows.now base count → cells.new ≡ before }
{
    undo(cells, &rows[16512..24960], count);
    clear(cells, base, base + 64);
}

// By `fit`, which weighs what it binds, on levels and a stack that are lent. `try_rows` (trials) has its own, and neither a weight nor a solution before it.
fn try_rows(
    heap: &[u32],
    cells: &mut [u16],
    rows: &mut [u16; CELLS],
    levels: &mut [u16],
    stack: &mut [u16],
    s: Standing,
) -> Attempt
    requires { IsSetUp heap.now cells.old s × (length levels.old ≡ 1028) × (length stack.old ≡ 387) }
    ensures attempted { Attempted heap.now cells.old s cells.new rows.new result }
    ensures levels { Fore levels.old levels.new }
{
    let t = begun(s);
    match fit(
        heap,
        cells,
        &mut rows[16512..24960],
        &mut levels[514..1028],
        stack,
        t,
        s.at,
        s.top,
    ) {
        Tried::Fits(count, size) => Attempt::Fits(count, size),
        Tried::Clash(count) => {
            release(cells, rows, s.base, count);
            Attempt::Clash
        }
        Tried::Tired(count) => {
            release(cells, rows, s.base, count);
            Attempt::Tired
        }
    }
}

// The words of a clause, the first `head` of which are its head, put behind what is held.
fn try_clause(
    clause: &[u32],
    head: usize,
    words: &mut [u32],
    cells: &mut [u16],
    rows: &mut [u16; CELLS],
    levels: &mut [u16],
    stack: &mut [u16],
    s: Standing,
) -> Attempt
    requires words_len_bound { (length words.old ≤ WORDS) × (s.top + 256 ≤ length words.old) × (s.base ≤ 8192) × (length stack.old ≡ 387) }
    requires by_index { ((f : Expr) × (g : Goal) × (a : Goal) × Holds words.old cells.old levels.old s (f ∷ g) a) × ((c : Clause) × (n : ℕ) × ClauseIn clause.now head n c) }
    ensures words { take s.top words.new ≡ take s.top words.old }
    ensures levels { Fore levels.old levels.new }
    ensures tested { (f : Expr) (g a : Goal) (c : Clause) (n : ℕ) → Holds words.old cells.old levels.old s (f ∷ g) a → ClauseIn clause.now head n c → Tested f c (take s.top words.old) clause.now words.new cells.old s cells.new rows.new result }
{
    let top = s.top;
    let r = append(words, top, clause, s.base as u32);
    try_rows(&words[0..r], cells, rows, levels, stack, s)
}

// The first clause that fits, by its number, how many goal variables its trial has bound and what each of them stands for at most; or that it is a fact which stands there; or nothing is known.
#[derive(Clone, Copy)]
pub enum Found {
    Clause(usize, usize, Option<Weight>),
    Given(usize),
    Unsure,
}

pub fn first_fit(
    book: &[u32],
    shelf: &[u16],
    words: &mut [u32],
    cells: &mut [u16],
    rows: &mut [u16; CELLS],
    levels: &mut [u16],
    stack: &mut [u16],
    s: Standing,
) -> Found
    requires words_len_bound { (length words.old ≤ WORDS) × (s.top + 256 ≤ length words.old) × (s.base ≤ 8192) × (length stack.old ≡ 387) }
    requires holds { ((P : Book) × BookOn book.now shelf.now P) × ((f : Expr) × (g : Goal) × (a : Goal) × Holds words.old cells.old levels.old s (f ∷ g) a) }
    ensures words { take s.top words.new ≡ take s.top words.old }
    ensures levels { Fore levels.old levels.new }
    ensures sought { (P : Book) (f : Expr) (g a : Goal) → BookOn book.now shelf.now P → Holds words.old cells.old levels.old s (f ∷ g) a → Sought P f book.now shelf.now (take s.top words.old) words.new cells.old s cells.new rows.new result }
{
    let all = clauses(shelf);
    let u = word(words, s.at);
    let top = s.top;
    let x = lead(&words[0..top], cells, s.at);
    let mut i = hopeful(book, shelf, u, x, find(book, shelf, u, 0));
    while i < all {
        if is_given(book, shelf, words, s, i) {
            return Found::Given(i);
        }
        let b = entry(shelf, START, i);
        let e = entry(shelf, HEAD, i);
        let t = entry(shelf, START, i + 1);
        match try_clause(&book[b..t], e - b, words, cells, rows, levels, stack, s) {
            Attempt::Fits(count, size) => return Found::Clause(i, count, size),
            Attempt::Clash => i = hopeful(book, shelf, u, x, find_next(book, shelf, u, i)),
            Attempt::Tired => return Found::Unsure,
        }
    }
    Found::Unsure
}
