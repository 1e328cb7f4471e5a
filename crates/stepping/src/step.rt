// The single step: "Split the single step in two: one call picks the clause, a second applies a clause by its number. The run and the old step are
// to be built on these" (document 02, C-16).
ghost use Rattle.std.specs.Prelude.{◌≡◌};
ghost use Rattle.outcomes.specs.Outcome.{step_answer, step_area};
ghost use Rattle.outcomes.specs.Stepping.{not_stepped};

use crate::apply::apply;
use outcomes::Stepped;
use picker::pick;

// No step is taken: "otherwise steps and clause number are 0".
pub fn not_stepped(code: u8, place: u32, furthest: u32, argument: u32) -> Stepped
    ensures { result ≡ not_stepped code place (record { clause = furthest; argument = argument }) }
{
    Stepped {
        code,
        place,
        furthest,
        argument,
        ..Stepped::default()
    }
}

// "Take one step from a query, by a book, into a goal area."
pub fn step(book: &[u8], query: &[u8], area: &mut [u8]) -> Stepped
    ensures answer { result ≡ step_answer book.now query.now area.old }
    ensures area { area.new ≡ step_area book.now query.now area.old }
{
    if area.len() < 16387 {
        return not_stepped(1, 0, 0, 0);
    }
    let picked = pick(book, query);
    // The pick's code is a number, as the README has it.
    if picked.code == 25 {
        return apply(book, query, picked.clause, area);
    }
    not_stepped(picked.code, picked.place, picked.furthest, picked.argument)
}
