// The entries that print (document 02, C-14), each with its line. What each leaves in the lent area is what the entry's contract says.
ghost use Rattle.std.specs.Prelude.{◌≡◌};
ghost use Rattle.printouts.specs.Outcome.{print_area, goal_area};
ghost use Rattle.printouts.specs.Answer.{found_area};

use crate::line::{say, sum};
use printouts::Printout;

fn printed(rt: &impl Print, a: Printout, area: &[u8]) {
    let Printout { code, place, bytes } = a;
    say(
        rt,
        &[u64::from(code), place as u64, bytes as u64],
        sum(area),
    );
}

pub fn book(rt: &impl Print, book: &[u8], names: &[u8], area: &mut [u8])
    ensures { area.new ≡ print_area book.now names.now area.old }
{
    let a = printer::print_book(book, names, area);
    printed(rt, a, area);
}

pub fn goal(rt: &impl Print, book: &[u8], goal: &[u8], names: &[u8], area: &mut [u8])
    ensures { area.new ≡ goal_area book.now goal.now names.now area.old }
{
    let a = printer::print_goal(book, goal, names, area);
    printed(rt, a, area);
}

pub fn answer(rt: &impl Print, book: &[u8], answer: &[u8], names: &[u8], area: &mut [u8])
    ensures { area.new ≡ found_area book.now answer.now names.now area.old }
{
    let a = printer::print_answer(book, answer, names, area);
    printed(rt, a, area);
}
