// The apply call (document 02, C-16): the next goal by a clause that the caller names. Refusals, "after the input codes: 20 empty goal, 32 no such
// clause, 33 head doesn't unify, 24; in this order".
ghost use Rattle.std.specs.Prelude.{◌≡◌, ◌+◌, ◌*◌, ◌≤◌, ◌<◌, ◌∷◌, length};
ghost use Rattle.terms.specs.Node.{Expr};
ghost use Rattle.search.specs.Next.{Book, Goal};
ghost use Rattle.search.specs.Pick.{apply_by};
ghost use Rattle.words.specs.Held.{GoalIn, BookOn};
ghost use Rattle.format.specs.Decode.{book_of, goal_of};
ghost use Rattle.areas.specs.Rooms.{Rooms};
ghost use Rattle.outcomes.specs.Outcome.{step_refused, apply_answer, apply_area};
ghost use Rattle.outcomes.specs.Refusals.{Good};
ghost use Rattle.outcomes.specs.Stepping.{Gives, no_step, one_step};

use areas::{open_book, open_query, put_goal};
use outcomes::Stepped;
use outcomes::admit::{Admitted, admit};
use resolve::{Move, apply_number};
use words::rows::CELLS;
use words::shelf::clauses;
use words::{OUT, WORDS};

// What an apply call answers (document 02, C-16): "20 empty goal, 32 no such clause, 33 head doesn't unify, 24".
const EMPTY: u8 = 20;

const NO_ROOM: u8 = 24;

const APPLIED: u8 = 25;

const NO_CLAUSE: u8 = 32;

const APART: u8 = 33;

// "Codes 1 to 19 refuse the input .. and give steps, span, bytes and every count 0." Pick, apply call and run each answer by a struct of their own, and each
// definition has such a refusal: so there are three.
fn refused(a: Admitted) -> Stepped
    ensures { result ≡ step_refused a }
{
    Stepped {
        code: a.code,
        place: a.place,
        ..Stepped::default()
    }
}

fn no_step(code: u8) -> Stepped
    ensures { result ≡ no_step code }
{
    Stepped {
        code,
        ..Stepped::default()
    }
}

fn one_step(clause: usize, bytes: usize) -> Stepped
    requires { (clause ≤ 512) × (bytes ≤ 16387) }
    ensures { result ≡ one_step clause bytes }
{
    Stepped {
        code: APPLIED,
        steps: 1,
        bytes: bytes as u32,
        clause: clause as u32,
        ..Stepped::default()
    }
}

// A goal's formulas, and the number of the clause to apply.
#[derive(Clone, Copy)]
pub struct Call {
    pub formulas: usize,
    pub clause: usize,
}

// The clause applied to a goal that is not empty. "Or is refused and writes nothing."
fn from_formula(
    book: &[u32],
    shelf: &[u16],
    goal: &[u32],
    call: Call,
    area: &mut [u8],
    words: &mut [u32; WORDS],
    rows: &mut [u16; CELLS],
    out: &mut [u32; OUT],
) -> Stepped
    requires in_bounds { (16387 ≤ length area.old) × ((P : Book) × BookOn book.now shelf.now P × (call.clause < length P)) × ((f : Expr) × (g : Goal) × GoalIn goal.now call.formulas (f ∷ g)) }
    ensures { (P : Book) (f : Expr) (g : Goal) → BookOn book.now shelf.now P → GoalIn goal.now call.formulas (f ∷ g) → Gives (apply_by P (f ∷ g) call.clause) area.old result area.new }
{
    match apply_number(
        book,
        shelf,
        goal,
        call.formulas,
        call.clause,
        words,
        rows,
        out,
    ) {
        Move::Stuck(_, _) => no_step(APART),
        Move::Unknown => no_step(APART),
        Move::Full => no_step(NO_ROOM),
        Move::Over => no_step(NO_ROOM), // cannot be: there is no answer
        Move::To(_, n, _, count) => {
            let bytes = put_goal(&out[..n], count, area);
            one_step(call.clause, bytes)
        }
    }
}

// The clause applied to a goal, with storage for the trial of its first formula.
fn from_goal(book: &[u32], shelf: &[u16], goal: &[u32], call: Call, area: &mut [u8]) -> Stepped
    requires { (16387 ≤ length area.old) × ((P : Book) × BookOn book.now shelf.now P) × ((g : Goal) × GoalIn goal.now call.formulas g) }
    ensures { (P : Book) (g : Goal) → BookOn book.now shelf.now P → GoalIn goal.now call.formulas g → Gives (apply_by P g call.clause) area.old result area.new }
{
    if call.formulas == 0 {
        return no_step(EMPTY);
    }
    if clauses(shelf) <= call.clause {
        return no_step(NO_CLAUSE);
    }
    let mut words = [0u32; WORDS];
    let mut rows = [0u16; CELLS];
    let mut out = [0u32; OUT];
    from_formula(
        book, shelf, goal, call, area, &mut words, &mut rows, &mut out,
    )
}

// The clause applied to a good query, by a good book, opened into the storage lent.
fn from_bytes(
    book: &[u8],
    query: &[u8],
    clause: u32,
    area: &mut [u8],
    words: &mut [u32],
    shelf: &mut [u16],
    goal: &mut [u32],
) -> Stepped
    requires good { Good book.now query.now (length area.old) }
    requires rooms { Rooms book.now words.old shelf.old × (4096 ≤ length goal.old) }
    ensures { Gives (apply_by (book_of book.now) (goal_of query.now) clause) area.old result area.new }
{
    let clauses = open_book(book, words, shelf);
    let opened = open_query(query, goal);
    let used = 4 * clauses + 260;
    from_goal(
        words,
        &shelf[..used],
        &goal[..opened.words],
        Call {
            formulas: opened.formulas,
            clause: clause as usize,
        },
        area,
    )
}

// The same with storage of its own, with room for N words of the book.
fn with_words<const N: usize>(book: &[u8], query: &[u8], clause: u32, area: &mut [u8]) -> Stepped
    requires good { Good book.now query.now (length area.old) }
    requires book_len_bound { (length book.now ≤ 3 * N + 2) × (N ≤ 10922) }
    ensures { Gives (apply_by (book_of book.now) (goal_of query.now) clause) area.old result area.new }
{
    let mut words = [0u32; N];
    let mut shelf = [0u16; 2308];
    let mut goal = [0u32; 4096];
    from_bytes(book, query, clause, area, &mut words, &mut shelf, &mut goal)
}

// A book of up to 9,216 bytes gets a quarter of the words that any may need: clearing them takes time. Each number of words has a function of its own, so
// that those for long books take no room beside those for short ones.
fn from_good(book: &[u8], query: &[u8], clause: u32, area: &mut [u8]) -> Stepped
    requires { Good book.now query.now (length area.old) }
    ensures { Gives (apply_by (book_of book.now) (goal_of query.now) clause) area.old result area.new }
{
    if book.len() <= 9216 {
        return with_words::<3072>(book, query, clause, area);
    }
    with_words::<10922>(book, query, clause, area)
}

// "A second applies a clause by its number", which is any number of 32 bits.
pub fn apply(book: &[u8], query: &[u8], clause: u32, area: &mut [u8]) -> Stepped
    ensures answer { result ≡ apply_answer book.now query.now clause area.old }
    ensures area { area.new ≡ apply_area book.now query.now clause area.old }
{
    match admit(book, query, area.len()) {
        Ok(()) => from_good(book, query, clause, area),
        Err(refusal) => refused(refusal),
    }
}
