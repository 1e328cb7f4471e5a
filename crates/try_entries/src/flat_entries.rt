// The entries of the flat profile, each with its line. What each leaves in a lent area is what the entry's contract says.
ghost use Rattle.std.specs.Prelude.{◌≡◌};
ghost use Rattle.flatly.specs.Outcome.{flat_step_area, flat_run_area, flat_run_answer_area};

use crate::entries::{answered, check, stepped};
use crate::line::{say, sum};
use profile::firmware;

pub fn check_book(rt: &impl Print, book: &[u8]) {
    let a = flatness::check_flat_book(book);
    say(
        rt,
        &[
            u64::from(a.code),
            a.place as u64,
            a.clauses as u64,
            a.predicates as u64,
        ],
        a.constants as u64,
    );
}

pub fn check_query(rt: &impl Print, book: &[u8], query: &[u8]) {
    check(rt, flatness::check_flat_query(book, query));
}

pub fn step(rt: &impl Print, book: &[u8], query: &[u8], area: &mut [u8])
    ensures { area.new ≡ flat_step_area book.now query.now area.old }
{
    let a = profile::flat_step(book, query, area);
    stepped(rt, a, area);
}

pub fn run(
    rt: &impl Print,
    book: &[u8],
    query: &[u8],
    budget: u32,
    area: &mut [u8],
    answer: &mut [u8],
)
    ensures area { area.new ≡ flat_run_area book.now query.now budget area.old answer.old }
    ensures answer { answer.new ≡ flat_run_answer_area book.now query.now budget area.old answer.old }
{
    let a = profile::flat_run(book, query, budget, area, answer);
    answered(rt, a, area, answer);
}

pub fn book_for_c(rt: &impl Print, book: &[u8]) {
    let number = firmware::pitxargole_flat_book(book);
    say(rt, &[], number);
}

pub fn query_for_c(rt: &impl Print, book: &[u8], query: &[u8]) {
    let number = firmware::pitxargole_flat_query(book, query);
    say(rt, &[], number);
}

pub fn step_for_c(rt: &impl Print, book: &[u8], query: &[u8], area: &mut [u8])
    ensures { area.new ≡ flat_step_area book.now query.now area.old }
{
    let number = firmware::pitxargole_flat_step(book, query, area);
    say(rt, &[number], sum(area));
}

pub fn run_for_c(
    rt: &impl Print,
    book: &[u8],
    query: &[u8],
    budget: u32,
    area: &mut [u8],
    answer: &mut [u8],
)
    ensures area { area.new ≡ flat_run_area book.now query.now budget area.old answer.old }
    ensures answer { answer.new ≡ flat_run_answer_area book.now query.now budget area.old answer.old }
{
    let number = firmware::pitxargole_flat_run(budget, book, query, area, answer);
    say(rt, &[number, sum(area)], sum(answer));
}
