// The pick (document 02, C-16): the clause that the single step would take. "It doesn't look at the next goal's size and never writes; its
// steps are 0."
#![tactic(auto)]

ghost use Rattle.std.specs.Prelude.{◌≡◌, ◌∷◌, ℕ, ◌+◌, ◌*◌, ◌≤◌, length};
ghost use Rattle.terms.specs.Node.{Expr};
ghost use Rattle.search.specs.Next.{Book, Goal};
ghost use Rattle.search.specs.Pick as Pick;
ghost use Rattle.search.specs.Furthest.{no_figures};
ghost use Rattle.words.specs.Held.{GoalIn, BookOn};
ghost use Rattle.format.specs.Decode.{book_of, goal_of};
ghost use Rattle.areas.specs.Rooms.{Rooms};
ghost use Rattle.outcomes.specs.Outcome.{pick_refused, picked_as, pick_said, pick_answer};
ghost use Rattle.outcomes.specs.Refusals.{Good};

use areas::{open_book, open_query};
use outcomes::Picked;
use outcomes::admit::{Admitted, admit};
use resolve::{Choice, choose};
use words::WORDS;
use words::rows::CELLS;

// What a pick answers (document 01, "Codes"; document 02, C-16 and C-22).
const EMPTY: u8 = 20;

const STUCK: u8 = 22;

const PICKED: u8 = 25;

const UNKNOWN: u8 = 26;

// Pick, apply call and run each answer by a struct of their own, and each definition has such a refusal: so there are three.
fn refused(a: Admitted) -> Picked
    ensures { result ≡ pick_refused a }
{
    Picked {
        code: a.code,
        place: a.place,
        ..Picked::default()
    }
}

fn picked(code: u8, clause: usize) -> Picked
    requires { clause ≤ 512 }
    ensures { result ≡ picked_as no_figures (record { code = code; clause = clause }) }
{
    Picked {
        code,
        clause: clause as u32,
        ..Picked::default()
    }
}

// None fits: "the clause that got furthest" and the argument at which its head fails.
fn stuck(furthest: usize, argument: usize) -> Picked
    requires { (furthest ≤ 512) × (argument ≤ 4096) }
    ensures { result ≡ picked_as (record { clause = furthest; argument = argument }) (record { code = 22; clause = 0 }) }
{
    Picked {
        code: STUCK,
        furthest: furthest as u32,
        argument: argument as u32,
        ..Picked::default()
    }
}

// The pick for a goal that is not empty.
fn from_formula(
    book: &[u32],
    shelf: &[u16],
    goal: &[u32],
    words: &mut [u32; WORDS],
    rows: &mut [u16; CELLS],
) -> Picked
    requires { ((P : Book) × BookOn book.now shelf.now P) × ((f : Expr) × (g : Goal) × (n : ℕ) × GoalIn goal.now n (f ∷ g)) }
    ensures { (P : Book) (f : Expr) (g : Goal) (n : ℕ) → BookOn book.now shelf.now P → GoalIn goal.now n (f ∷ g) → result ≡ pick_said P (f ∷ g) (Pick.pick P (f ∷ g)) }
{
    match choose(book, shelf, goal, words, rows) {
        Choice::Clause(clause) => picked(PICKED, clause),
        Choice::Stuck(furthest, argument) => stuck(furthest, argument),
        Choice::Unknown => picked(UNKNOWN, 0),
    }
}

// The pick for a goal, with storage for the trial of its first formula.
fn from_goal(book: &[u32], shelf: &[u16], goal: &[u32], formulas: usize) -> Picked
    requires { ((P : Book) × BookOn book.now shelf.now P) × ((g : Goal) × GoalIn goal.now formulas g) }
    ensures { (P : Book) (g : Goal) → BookOn book.now shelf.now P → GoalIn goal.now formulas g → result ≡ pick_said P g (Pick.pick P g) }
{
    if formulas == 0 {
        return picked(EMPTY, 0);
    }
    let mut words = [0u32; WORDS];
    let mut rows = [0u16; CELLS];
    from_formula(book, shelf, goal, &mut words, &mut rows)
}

// The pick for a good query by a good book, opened into the storage lent.
fn from_bytes(
    book: &[u8],
    query: &[u8],
    words: &mut [u32],
    shelf: &mut [u16],
    goal: &mut [u32],
) -> Picked
    requires good { Good book.now query.now 16387 }
    requires rooms { Rooms book.now words.old shelf.old × (4096 ≤ length goal.old) }
    ensures { result ≡ pick_said (book_of book.now) (goal_of query.now) (Pick.pick (book_of book.now) (goal_of query.now)) }
{
    let clauses = open_book(book, words, shelf);
    let opened = open_query(query, goal);
    let used = 4 * clauses + 260;
    from_goal(
        words,
        &shelf[..used],
        &goal[..opened.words],
        opened.formulas,
    )
}

// The same with storage of its own, with room for N words of the book. The apply call (stepping) has one too: it writes an area, and promises other things.
fn with_words<const N: usize>(book: &[u8], query: &[u8]) -> Picked
    requires good { Good book.now query.now 16387 }
    requires book_len_bound { (length book.now ≤ 3 * N + 2) × (N ≤ 10922) }
    ensures { result ≡ pick_said (book_of book.now) (goal_of query.now) (Pick.pick (book_of book.now) (goal_of query.now)) }
{
    let mut words = [0u32; N];
    let mut shelf = [0u16; 2308];
    let mut goal = [0u32; 4096];
    from_bytes(book, query, &mut words, &mut shelf, &mut goal)
}

// A book of up to 9,216 bytes gets a quarter of the words that any may need: clearing them takes time. Each number of words has a function of its own, so
// that those for long books take no room beside those for short ones.
fn from_good(book: &[u8], query: &[u8]) -> Picked
    requires { Good book.now query.now 16387 }
    ensures { result ≡ pick_said (book_of book.now) (goal_of query.now) (Pick.pick (book_of book.now) (goal_of query.now)) }
{
    if book.len() <= 9216 {
        return with_words::<3072>(book, query);
    }
    with_words::<10922>(book, query)
}

// "One call picks the clause." It lends no area, so that none can be too short.
pub fn pick(book: &[u8], query: &[u8]) -> Picked
    ensures { result ≡ pick_answer book.now query.now }
{
    match admit(book, query, 16387) {
        Ok(()) => from_good(book, query),
        Err(refusal) => refused(refusal),
    }
}
