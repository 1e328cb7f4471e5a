// A step that leaves goal and answer on the heap: the first clause that fits, found by trials, and its body in the place of the first formula; where it is not sure that
// the next goal and answer have room, or what the clauses say, no step.
#![tactic(auto)]

ghost use Rattle.std.specs.Prelude.{◌≡◌, true, List, ◌∷◌, ℕ, ◌+◌, ◌<◌, ◌≤◌, length, take, drop};
ghost use Rattle.terms.specs.Node.{Expr};
ghost use Rattle.search.specs.Next.{Clause, Book, Goal, clause_at};
ghost use Rattle.words.specs.Word.{Valids};
ghost use Rattle.words.specs.Columns.{WORDS};
ghost use Rattle.words.specs.Held.{Placed, BookOn};
ghost use Rattle.heap.specs.Heap.{Whole};
ghost use Rattle.heap.specs.Walking.{Levels};
ghost use Rattle.figures.specs.Figures.{FigureOf, Figured};
ghost use Rattle.heapgoals.specs.Holding.{Holds};
ghost use Rattle.bounds.specs.Sizing.{Weighed};
ghost use Rattle.trials.specs.Trying.{trail, clause_words};
ghost use Rattle.attempts.specs.Facts.{Bare};
ghost use Rattle.treads.specs.Adding.{span_words, head_long};
ghost use Rattle.treads.specs.Stepping.{IsUnderWay, BehindFirst, Entered, Went, Treads};

use crate::sizing::{Span, sized};
use attempts::{Found, first_fit, release};
use bounds::Weight;
use figures::figure_at;
use heap::past;
use heap::walking::{Walk, settled};
use heapgoals::Standing;
use words::rows::CELLS;
use words::shelf::{BODY, HEAD, START, entry};

pub mod sizing; // how large goal and answer are at most

// Where the goal's rows behind its first formula stand. Behind the only formula of a clause's body there are none in the same place, and it is not gone through for its end.
fn behind_first(heap: &[u32], s: Standing) -> usize
    requires { Valids heap.now × (length heap.now < 65536) × Whole heap.now s.due s.at × (0 < s.due) }
    ensures { BehindFirst heap.now s result }
{
    if s.due == 1 {
        return s.at;
    }
    past(heap, s.at)
}

// The k rows of a body in the place of the first formula.
fn entered(heap: &[u32], levels: &mut [u16], s: Standing, body: usize, k: usize) -> Walk
    requires valids { Valids heap.now × (length heap.now < 65536) × Whole heap.now s.due s.at × (0 < s.due) × Whole heap.now k body }
    requires levels { Levels heap.now levels.old s.depth × (s.depth < 256) × (length levels.old ≡ 1028) }
    ensures { Entered heap.now levels.old s body k levels.new result }
{
    let rest = behind_first(heap, s);
    let due = s.due - 1;
    let depth = s.depth;
    if k == 0 {
        return settled(
            levels,
            Walk {
                at: rest,
                due,
                depth,
            },
        );
    }
    if due == 0 {
        return Walk {
            at: body,
            due: k,
            depth,
        };
    }
    levels[2 * depth] = rest as u16;
    levels[2 * depth + 1] = due as u16;
    Walk {
        at: body,
        due: k,
        depth: depth + 1,
    }
}

// Where goal and answer stand after the step by the clause at c, whose trial the heap holds, with so many goal variables bound, each of which stands for so much at most, where that is known;
// none where it is not sure that they have room.
fn go(
    heap: &[u32],
    cells: &[u16],
    rows: &[u16; CELLS],
    levels: &mut [u16],
    s: Standing,
    c: Span,
    count: usize,
    known: Option<Weight>,
) -> Option<Standing>
    requires { ((book : List ℕ) × (words : List ℕ) × (before : List ℕ) × (f : Expr) × (g : Goal) × (a : Goal) × (d : Clause) × IsUnderWay book words before levels.old s c heap.now cells.now rows.now count f g a d) × (s.depth < 256) × Weighed heap.now cells.now s.base (trail rows.now) count known }
    ensures { Went levels.old s c heap.now cells.now rows.now count levels.new result }
{
    let formulas = s.formulas - 1 + c.bodies;
    if 512 < formulas {
        return None;
    }
    let size = sized(heap, cells, rows, levels, s, c, count, known)?;
    let body = s.top + (c.head - c.start);
    let w = entered(heap, levels, s, body, c.bodies);
    Some(Standing {
        at: w.at,
        due: w.due,
        depth: w.depth,
        formulas,
        top: heap.len(),
        base: s.base + size.names,
        nodes: size.nodes,
        found: size.found,
        variables: size.variables,
        most: size.most,
        least: size.least,
        ..s
    })
}

// Where the goal stands without its first formula, and with no body in its place.
fn drop_first(words: &[u32], levels: &mut [u16], s: Standing) -> Standing
    requires { ((cells : List ℕ) × (f : Expr) × (g : Goal) × (a : Goal) × Holds words.now cells levels.old s (f ∷ g) a) × (s.depth < 256) }
    ensures top { result.top ≡ s.top }
    ensures held { (cells : List ℕ) (f : Expr) (g a : Goal) → Bare f → Holds words.now cells levels.old s (f ∷ g) a → Holds words.now cells levels.new result g a }
{
    let top = s.top;
    let w = entered(&words[0..top], levels, s, top, 0);
    Standing {
        at: w.at,
        due: w.due,
        depth: w.depth,
        formulas: s.formulas - 1,
        least: 0,
        ..s
    }
}

// The clause number i, with its figure.
fn clause_at(book: &[u32], shelf: &[u16], figures: &mut [u16], i: usize) -> Span
    requires { ((P : Book) × BookOn book.now shelf.now P × (i < length P)) × Figured book.now shelf.now figures.old × (length figures.old ≡ 1024) }
    ensures placed { (P : Book) → BookOn book.now shelf.now P → i < length P → Placed book.now result.start result.head result.end result.bodies (clause_at P i) × (span_words book.now result ≡ clause_words book.now shelf.now (length P) i) }
    ensures figure { FigureOf (span_words book.now result) (head_long result) result.bodies result.figure }
    ensures figured { Figured book.now shelf.now figures.new }
{
    let start = entry(shelf, START, i);
    let head = entry(shelf, HEAD, i);
    let end = entry(shelf, START, i + 1);
    let bodies = entry(shelf, BODY, i);
    let figure = figure_at(&book[start..end], head - start, bodies, figures, i);
    Span {
        start,
        head,
        end,
        bodies,
        figure,
    }
}

// Whether there is room for a clause, its variables and a level.
fn has_room(s: Standing, length: usize) -> bool
    requires { s.top < 65536 }
    ensures { result ≡ true → (s.base ≤ 8192) × (s.top + 256 ≤ length) × (s.depth < 256) }
{
    s.base <= 8192 && s.top + 256 <= length && s.depth < 256
}

// The next goal and answer; none where no step is taken. The words in use stay as they are. The first 387 words of the stack are a trial's, and those behind them the figures of the book's clauses.
pub fn take_step(
    book: &[u32],
    shelf: &[u16],
    words: &mut [u32],
    cells: &mut [u16],
    rows: &mut [u16; CELLS],
    levels: &mut [u16],
    stack: &mut [u16],
    s: Standing,
) -> Option<Standing>
    requires words_len_bound { (length words.old ≤ WORDS) × (length stack.old ≡ 1411) × Figured book.now shelf.now (drop 387 stack.old) }
    requires book_on { (P : Book) × (f : Expr) × (g : Goal) × (a : Goal) × BookOn book.now shelf.now P × Holds words.old cells.old levels.old s (f ∷ g) a }
    ensures words { take s.top words.new ≡ take s.top words.old }
    ensures figured { Figured book.now shelf.now (drop 387 stack.new) }
    ensures treads { (P : Book) (f : Expr) (g a : Goal) → BookOn book.now shelf.now P → Holds words.old cells.old levels.old s (f ∷ g) a → Treads P f g a words.new cells.new levels.new s result }
{
    if !has_room(s, words.len()) {
        return None;
    }
    match first_fit(
        book,
        shelf,
        words,
        cells,
        rows,
        levels,
        &mut stack[0..387],
        s,
    ) {
        Found::Unsure => None,
        Found::Given(_) => Some(drop_first(words, levels, s)),
        Found::Clause(i, count, known) => {
            let c = clause_at(book, shelf, &mut stack[387..1411], i);
            let end = s.top + (c.end - c.start);
            let next = go(&words[0..end], cells, rows, levels, s, c, count, known);
            if next.is_none() {
                release(cells, rows, s.base, count);
            }
            next
        }
    }
}
