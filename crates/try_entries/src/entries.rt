// The entries, each with its line. What each leaves in a lent area is what the entry's contract says. Of what is written no contract can speak: a number that can't be written is left out, and the next one is tried.
ghost use Rattle.std.specs.Prelude.{◌≡◌};
ghost use Rattle.outcomes.specs.Outcome.{step_area, apply_area, run_area, run_answer_area};

use crate::line::{say, sum};
use format::Check;
use outcomes::{Answer, Picked, Stepped};

pub fn check(rt: &impl Print, a: Check) {
    let Check { code, place, count } = a;
    say(rt, &[u64::from(code), place as u64], count as u64);
}

pub fn check_book(rt: &impl Print, book: &[u8]) {
    check(rt, records::check_book(book));
}

pub fn check_query(rt: &impl Print, book: &[u8], query: &[u8]) {
    check(rt, records::check_query(book, query));
}

pub fn stepped(rt: &impl Print, a: Stepped, area: &[u8]) {
    let Stepped {
        code,
        place,
        steps,
        span,
        bytes,
        clause,
        furthest,
        argument,
    } = a;
    say(
        rt,
        &[
            u64::from(code),
            u64::from(place),
            u64::from(steps),
            u64::from(span),
            u64::from(bytes),
            u64::from(clause),
            u64::from(furthest),
            u64::from(argument),
        ],
        sum(area),
    );
}

pub fn step(rt: &impl Print, book: &[u8], query: &[u8], area: &mut [u8])
    ensures { area.new ≡ step_area book.now query.now area.old }
{
    let a = stepping::step::step(book, query, area);
    stepped(rt, a, area);
}

pub fn apply(rt: &impl Print, book: &[u8], query: &[u8], clause: u32, area: &mut [u8])
    ensures { area.new ≡ apply_area book.now query.now clause area.old }
{
    let a = stepping::apply::apply(book, query, clause, area);
    stepped(rt, a, area);
}

pub fn pick(rt: &impl Print, book: &[u8], query: &[u8]) {
    let Picked {
        code,
        place,
        steps,
        clause,
        furthest,
        argument,
    } = picker::pick(book, query);
    say(
        rt,
        &[
            u64::from(code),
            u64::from(place),
            u64::from(steps),
            u64::from(clause),
            u64::from(furthest),
        ],
        u64::from(argument),
    );
}

pub fn answered(rt: &impl Print, a: Answer, area: &[u8], answer: &[u8]) {
    let Answer {
        code,
        place,
        steps,
        span,
        bytes,
        answer: answer_bytes,
        furthest,
        argument,
    } = a;
    say(
        rt,
        &[
            u64::from(code),
            u64::from(place),
            u64::from(steps),
            u64::from(span),
            u64::from(bytes),
            u64::from(answer_bytes),
            u64::from(furthest),
            u64::from(argument),
            sum(area),
        ],
        sum(answer),
    );
}

pub fn run(
    rt: &impl Print,
    book: &[u8],
    query: &[u8],
    budget: u32,
    area: &mut [u8],
    answer: &mut [u8],
)
    ensures area { area.new ≡ run_area book.now query.now budget area.old answer.old }
    ensures answer { answer.new ≡ run_answer_area book.now query.now budget area.old answer.old }
{
    let a = running::run(book, query, budget, area, answer);
    answered(rt, a, area, answer);
}

pub fn run_for_c(
    rt: &impl Print,
    book: &[u8],
    query: &[u8],
    budget: u32,
    area: &mut [u8],
    answer: &mut [u8],
)
    ensures area { area.new ≡ run_area book.now query.now budget area.old answer.old }
    ensures answer { answer.new ≡ run_answer_area book.now query.now budget area.old answer.old }
{
    let number = engine::pitxargole_run(budget, book, query, area, answer);
    say(rt, &[number, sum(area)], sum(answer));
}

pub fn pick_for_c(rt: &impl Print, book: &[u8], query: &[u8]) {
    let number = engine::pitxargole_pick(book, query);
    say(rt, &[], number);
}

pub fn apply_for_c(rt: &impl Print, book: &[u8], query: &[u8], clause: u32, area: &mut [u8])
    ensures { area.new ≡ apply_area book.now query.now clause area.old }
{
    let number = engine::pitxargole_apply(clause, book, query, area);
    say(rt, &[number], sum(area));
}
