// Reading and printing for C: "called from there with numbers and byte areas only". The crate office_c exports these functions.
#![tactic(auto)]

ghost use Rattle.std.specs.Prelude.{◌≡◌};
ghost use Rattle.printouts.specs.Outcome.{print_answer, print_area, goal_answer, goal_area};
ghost use Rattle.printouts.specs.Answer.{found_answer, found_area};
ghost use Rattle.readouts.specs.Outcome.{read_answer, read_book, names_read};
ghost use Rattle.questions.specs.Outcome.{outcome, query_area, list_area};
ghost use Rattle.textnumbers.specs.Numbers.{text_number, read_number, query_number};

use printer::{print_answer, print_book, print_goal};
use queries::read_query;
use textnumbers::{query_number, read_number, text_number};
use texts::read_text;

pub fn pitxargole_print_book(book: &[u8], names: &[u8], area: &mut [u8]) -> u64
    ensures said { result ≡ text_number (print_answer book.now names.now area.old) }
    ensures text { area.new ≡ print_area book.now names.now area.old }
{
    text_number(print_book(book, names, area))
}

pub fn pitxargole_print_goal(book: &[u8], goal: &[u8], names: &[u8], area: &mut [u8]) -> u64
    ensures said { result ≡ text_number (goal_answer book.now goal.now names.now area.old) }
    ensures text { area.new ≡ goal_area book.now goal.now names.now area.old }
{
    text_number(print_goal(book, goal, names, area))
}

pub fn pitxargole_print_answer(book: &[u8], answer: &[u8], names: &[u8], area: &mut [u8]) -> u64
    ensures said { result ≡ text_number (found_answer book.now answer.now names.now area.old) }
    ensures text { area.new ≡ found_area book.now answer.now names.now area.old }
{
    text_number(print_answer(book, answer, names, area))
}

pub fn pitxargole_read_text(text: &[u8], book: &mut [u8], names: &mut [u8]) -> u64
    ensures said { result ≡ read_number (read_answer text.now book.old names.old) }
    ensures book { book.new ≡ read_book text.now book.old names.old }
    ensures names { names.new ≡ names_read text.now book.old names.old }
{
    read_number(read_text(text, book, names))
}

pub fn pitxargole_read_query(
    text: &[u8],
    book: &[u8],
    names: &[u8],
    query: &mut [u8],
    list: &mut [u8],
) -> u64
    ensures said { result ≡ query_number (outcome text.now book.now names.now query.old list.old) }
    ensures query { query.new ≡ query_area text.now book.now names.now query.old list.old }
    ensures list { list.new ≡ list_area text.now book.now names.now query.old list.old }
{
    query_number(read_query(text, book, names, query, list))
}
