// The run.
#![tactic(auto)]

ghost use Rattle.std.specs.Prelude.{◌≡◌, ◌+◌, ◌*◌, ◌≤◌, min, length, take};
ghost use Rattle.search.specs.Next.{Book, Goal};
ghost use Rattle.words.specs.Held.{BookOn};
ghost use Rattle.format.specs.Decode.{book_of};
ghost use Rattle.states.specs.States.{Ends};
ghost use Rattle.searching.specs.Searching.{Asked};
ghost use Rattle.outcomes.specs.Outcome.{closing, run_answer, run_area, run_answer_area};
ghost use Rattle.outcomes.specs.Refusals.{Good};
ghost use Rattle.outcomes.specs.Running.{Leaves};

use areas::{open_book, open_row, put_goal};
use endings::{answered, refused, shorter};
use outcomes::Answer;
use outcomes::admit::admit;
use searching::{Query, search};
use states::Ended;
use words::rows::CELLS;
use words::{OUT, WORDS};

// The search from a goal, with storage for its steps.
fn from_goal(
    book: &[u32],
    shelf: &[u16],
    goal: &mut [u32; WORDS],
    rows: &mut [u16; CELLS],
    query: Query,
) -> Ended
    requires { (query.words + query.answer ≤ length goal.old) × ((P : Book) × BookOn book.now shelf.now P) × ((q : Goal) × Asked (take (query.words + query.answer) goal.old) query.words query.formulas q) }
    ensures { (P : Book) (q : Goal) → BookOn book.now shelf.now P → Asked (take (query.words + query.answer) goal.old) query.words query.formulas q → Ends P q query.budget goal.new result }
{
    let mut saved = [0u32; 4096];
    let mut out = [0u32; OUT];
    search(book, shelf, goal, query, &mut saved, rows, &mut out)
}

// "A run with code 20 to 24 leaves the final goal's image at the front. Past the image the area keeps its bytes." "The goal area and the answer
// area hold the goal and the instance at the closing state" (document 02, C-11). There is room for N words of the book.
fn with_words<const N: usize>(
    book: &[u8],
    query: &[u8],
    budget: u32,
    area: &mut [u8],
    answer: &mut [u8],
    rows: &mut [u16; CELLS],
) -> Answer
    requires good { Good book.now query.now (min (length area.old) (length answer.old)) }
    requires book_len_bound { (length book.now ≤ 3 * N + 2) × (N ≤ 10922) }
    ensures { Leaves (book_of book.now) (closing book.now query.now budget) area.old answer.old result area.new answer.new }
{
    let mut words = [0u32; N];
    let mut shelf = [0u16; 2308];
    let mut goal = [0u32; WORDS];
    let clauses = open_book(book, &mut words, &mut shelf);
    let opened = open_row(query, &mut goal);
    let used = 4 * clauses + 260;
    let e = from_goal(
        &words,
        &shelf[..used],
        &mut goal,
        rows,
        Query {
            words: opened.words,
            formulas: opened.formulas,
            answer: opened.answer,
            budget,
        },
    );
    let n = e.words;
    let m = n + e.answer;
    let bytes = put_goal(&goal[..n], e.formulas, area);
    let said = put_goal(&goal[n..m], opened.formulas, answer);
    answered(e, bytes, said)
}

// The step's tables stand here, where the compiler can give them the room that the check's table had before. A book of up to 9,216 bytes gets a quarter of
// the words that any may need: clearing them takes time.
fn from_good(book: &[u8], query: &[u8], budget: u32, area: &mut [u8], answer: &mut [u8]) -> Answer
    requires { Good book.now query.now (min (length area.old) (length answer.old)) }
    ensures { Leaves (book_of book.now) (closing book.now query.now budget) area.old answer.old result area.new answer.new }
{
    let mut rows = [0u16; CELLS];
    if book.len() <= 9216 {
        return with_words::<3072>(book, query, budget, area, answer, &mut rows);
    }
    with_words::<10922>(book, query, budget, area, answer, &mut rows)
}

// "Run a query by a book, with a budget and a goal area", and with an answer area.
pub fn run(book: &[u8], query: &[u8], budget: u32, area: &mut [u8], answer: &mut [u8]) -> Answer
    ensures said { result ≡ run_answer book.now query.now budget area.old answer.old }
    ensures area { area.new ≡ run_area book.now query.now budget area.old answer.old }
    ensures answer { answer.new ≡ run_answer_area book.now query.now budget area.old answer.old }
{
    match admit(book, query, shorter(area.len(), answer.len())) {
        Ok(()) => from_good(book, query, budget, area, answer),
        Err(refusal) => refused(refusal),
    }
}
