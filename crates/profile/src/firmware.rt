// The flat profile for C firmware. A step and a run have the numbers that the plain ones have. The crate profile_c exports these functions.
ghost use Rattle.std.specs.Prelude.{◌≡◌};
ghost use Rattle.outcomes.specs.Firmware.{number};
ghost use Rattle.outcomes.specs.CallNumbers.{apply_number};
ghost use Rattle.flatness.specs.Profile.{flat_book_of, query_flat};
ghost use Rattle.flatly.specs.Outcome.{flat_step_answer, flat_step_area, flat_run_answer, flat_run_area, flat_run_answer_area, flat_book_number, flat_query_number};

use crate::{flat_run, flat_step};
use flatly::{book_number, query_number};
use flatness::{check_flat_book, check_flat_query};
use numbers::{applied_number, number};

pub fn pitxargole_flat_book(book: &[u8]) -> u64
    ensures { result ≡ flat_book_number (flat_book_of book.now) }
{
    book_number(check_flat_book(book))
}

pub fn pitxargole_flat_query(book: &[u8], query: &[u8]) -> u64
    ensures { result ≡ flat_query_number (query_flat book.now query.now) }
{
    query_number(check_flat_query(book, query))
}

pub fn pitxargole_flat_step(book: &[u8], query: &[u8], area: &mut [u8]) -> u64
    ensures answer { result ≡ apply_number (flat_step_answer book.now query.now area.old) }
    ensures area { area.new ≡ flat_step_area book.now query.now area.old }
{
    applied_number(flat_step(book, query, area))
}

pub fn pitxargole_flat_run(
    budget: u32,
    book: &[u8],
    query: &[u8],
    area: &mut [u8],
    answer: &mut [u8],
) -> u64
    ensures said { result ≡ number (flat_run_answer book.now query.now budget area.old answer.old) }
    ensures area { area.new ≡ flat_run_area book.now query.now budget area.old answer.old }
    ensures answer { answer.new ≡ flat_run_answer_area book.now query.now budget area.old answer.old }
{
    number(flat_run(book, query, budget, area, answer))
}
