// The step by the first clause that fits, found by trials on the heap; where a trial gives up, or no clause fits, by the step that takes its time.
ghost use Rattle.std.specs.Prelude.{◌≡◌, List, ◌∷◌, ℕ, ◌+◌, ◌-◌, ◌<◌, ◌≤◌, length, get_or, take};
ghost use Rattle.terms.specs.Node.{Expr};
ghost use Rattle.search.specs.Next.{Book, Goal};
ghost use Rattle.words.specs.Held.{RowIn, BookOn, starts, bodies};
ghost use Rattle.numbering.specs.Naming.{spare};
ghost use Rattle.resolve.specs.Advancing.{Advanced};
ghost use Rattle.matching.specs.TrialLaws.{Free};
ghost use Rattle.trying.specs.Stepping.{parts, concluded, Shaped, IsSetUp, Quickly, Quickened};

use crate::carrying::{Next, Parts, write_next};
pub use heapgoals::Sides;
use picking::append;
use resolve::{Front, Move};
use trials::first_fit;
use trials::resetting::release;
use words::rows::CELLS;
use words::shelf::{BODY, HEAD, START, entry};
use words::{OUT, WORDS};

// Of a row of words, a goal with its answer behind it: how many words it has, how many of them are the goal's and how many the goal's first
// formula, and how many formulas goal and answer have.
#[derive(Clone, Copy)]
pub struct Shape {
    pub row: usize,
    pub goal: usize,
    pub first: usize,
    pub formulas: usize,
    pub answers: usize,
}

// Where the body of the clause number i stands, put behind the row; and the rest.
fn parts_of(shelf: &[u16], x: Shape, i: usize) -> Parts
    requires { ((book : List ℕ) × (P : Book) × BookOn book shelf.now P × (i < length P)) × (x.row ≤ 8192) × (0 < x.formulas) }
    ensures { (n : ℕ) → i < n → result ≡ parts shelf.now x n i }
{
    let s = entry(shelf, START, i);
    let e = entry(shelf, HEAD, i);
    Parts {
        body: x.row + (e - s),
        bodies: entry(shelf, BODY, i),
        rest: x.first,
        others: x.formulas - 1,
        answer: x.goal,
        answers: x.answers,
    }
}

// Where it ends.
fn end_of(shelf: &[u16], row: usize, i: usize) -> usize
    requires { ((book : List ℕ) × (P : Book) × BookOn book shelf.now P × (i < length P)) × (row ≤ 8192) }
    ensures { (n : ℕ) → i < n → result ≡ row + (get_or (starts n shelf.now) (i + 1) 0 - get_or (starts n shelf.now) i 0) }
{
    let s = entry(shelf, START, i);
    let t = entry(shelf, START, i + 1);
    row + (t - s)
}

// What was written, as a move by the clause number i to a goal of so many formulas; none where nothing is known.
fn concluded(next: Next, i: usize, formulas: usize) -> Option<Move>
    ensures { result ≡ concluded next i formulas }
{
    match next {
        Next::Tired => None,
        Next::Full => Some(Move::Full),
        Next::Over => Some(Move::Over),
        Next::Done(goal, answer) => Some(Move::To(i, goal, answer, formulas)),
    }
}

// What the clause number i, whose trial the heap holds, says to the row.
fn carry(
    shelf: &[u16],
    words: &[u32; WORDS],
    x: Shape,
    i: usize,
    cells: &[u16],
    rows: &mut [u16; CELLS],
    out: &mut [u32; OUT],
) -> Option<Move>
    requires cells_len { length cells.now ≡ 8256 }
    requires by_index { (book : List ℕ) × (count : ℕ) × (P : Book) × (f : Expr) × (g : Goal) × (a : Goal) × IsSetUp book shelf.now words.now cells.now rows.old x i count P f g a }
    ensures quickly { (book : List ℕ) (count : ℕ) (P : Book) (f : Expr) (g a : Goal) → IsSetUp book shelf.now words.now cells.now rows.old x i count P f g a → Quickly P i f g a out.new result }
    ensures spare { spare rows.new ≡ spare rows.old }
{
    let p = parts_of(shelf, x, i);
    let formulas = p.bodies + p.others;
    if 512 < formulas {
        return Some(Move::Full);
    }
    let end = end_of(shelf, x.row, i);
    let next = write_next(&words[0..end], cells, rows, out, p);
    concluded(next, i, formulas)
}

// The row put on the heap, and what the first clause that fits says to it.
fn on_heap(
    book: &[u32],
    shelf: &[u16],
    x: Shape,
    words: &mut [u32; WORDS],
    rows: &mut [u16; CELLS],
    out: &mut [u32; OUT],
    cells: &mut [u16],
) -> Option<Move>
    requires cells_len { (length cells.old ≡ 8256) × Free cells.old }
    requires shaped { ((P : Book) × BookOn book.now shelf.now P) × ((f : Expr) × (g : Goal) × (a : Goal) × Shaped (take x.row words.old) x f g a) }
    ensures quickened { (P : Book) (f : Expr) (g a : Goal) → BookOn book.now shelf.now P → Shaped (take x.row words.old) x f g a → Quickened P (f ∷ g) a out.new result }
    ensures free { Free cells.new }
{
    let found = first_fit(book, shelf, words, x.row, x.first, cells, rows)?;
    let next = carry(shelf, words, x, found.clause, cells, rows, out);
    release(cells, rows, found.count);
    next
}

fn shape_of(row: &[u32], sides: Sides) -> Shape
    ensures { ((f : Expr) (g a : Goal) → RowIn row.now sides.words sides.formulas (f ∷ g) a → sides.answers ≡ length a → sides.first ≡ length f → Shaped row.now result f g a) × (result.row ≡ length row.now) }
{
    Shape {
        row: row.len(),
        goal: sides.words,
        first: sides.first,
        formulas: sides.formulas,
        answers: sides.answers,
    }
}

// The next goal and answer by the first clause whose head unifies with the goal's first formula; before and after, no variable is bound.
pub fn advance(
    book: &[u32],
    shelf: &[u16],
    row: &[u32],
    sides: Sides,
    words: &mut [u32; WORDS],
    rows: &mut [u16; CELLS],
    out: &mut [u32; OUT],
    cells: &mut [u16],
) -> Move
    requires cells_len { (length cells.old ≡ 8256) × Free cells.old }
    requires row_in { ((P : Book) × BookOn book.now shelf.now P) × ((f : Expr) × (g : Goal) × (a : Goal) × RowIn row.now sides.words sides.formulas (f ∷ g) a × (sides.answers ≡ length a) × (sides.first ≡ length f)) }
    ensures advanced { (P : Book) (f : Expr) (g a : Goal) → BookOn book.now shelf.now P → RowIn row.now sides.words sides.formulas (f ∷ g) a → sides.answers ≡ length a → sides.first ≡ length f → Advanced P (f ∷ g) a out.new result }
    ensures free { Free cells.new }
{
    let x = shape_of(row, sides);
    append(words, 0, row, 0);
    match on_heap(book, shelf, x, words, rows, out, cells) {
        Some(next) => next,
        None => {
            let front = Front {
                words: sides.words,
                formulas: sides.formulas,
            };
            resolve::advance(book, shelf, row, front, words, rows, out)
        }
    }
}
