// The entries of the flat profile (document 02, C-20): the single step and the run behind the flat checks; for C firmware too. Each takes any arguments
// and refuses what is not good.
#![tactic(auto)]

ghost use Rattle.std.specs.Prelude.{◌≡◌, ◌≤◌};
ghost use Rattle.flatly.specs.Outcome.{flat_step_answer, flat_step_area, flat_run_answer, flat_run_area, flat_run_answer_area};

use endings::{refused, shorter};
use flatness::check_flat_query;
use format::Check;
use outcomes::admit::Admitted;
use outcomes::{Answer, Stepped};
use running::run;
use stepping::step::{not_stepped, step};

pub mod firmware; // for C

// What a flat check has found, as a refusal.
fn found(c: Check) -> Admitted
    requires { c.place ≤ 32768 }
    ensures { result ≡ record { code = c.code; place = c.place } }
{
    Admitted {
        code: c.code,
        place: c.place as u32,
    }
}

// "Order: area; whole book; whole query." An area that is too short is for the plain step to refuse. With two calls of it the compiler leaves it a
// function of its own, whose frame is not yet there while the flat check has its table; so it is with the run.
pub fn flat_step(book: &[u8], query: &[u8], area: &mut [u8]) -> Stepped
    ensures answer { result ≡ flat_step_answer book.now query.now area.old }
    ensures area { area.new ≡ flat_step_area book.now query.now area.old }
{
    if area.len() < 16387 {
        return step(book, query, area);
    }
    let both = check_flat_query(book, query);
    if both.code == 0 {
        return step(book, query, area);
    }
    let a = found(both);
    not_stepped(a.code, a.place, 0, 0)
}

pub fn flat_run(
    book: &[u8],
    query: &[u8],
    budget: u32,
    area: &mut [u8],
    answer: &mut [u8],
) -> Answer
    ensures said { result ≡ flat_run_answer book.now query.now budget area.old answer.old }
    ensures area { area.new ≡ flat_run_area book.now query.now budget area.old answer.old }
    ensures answer { answer.new ≡ flat_run_answer_area book.now query.now budget area.old answer.old }
{
    if shorter(area.len(), answer.len()) < 16387 {
        return run(book, query, budget, area, answer);
    }
    let both = check_flat_query(book, query);
    if both.code == 0 {
        return run(book, query, budget, area, answer);
    }
    refused(found(both))
}
