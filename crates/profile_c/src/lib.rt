// The flat profile for C firmware. A step and a run have the numbers that the plain ones have. Each is profile's function of its name.
#![tactic(auto)]

ghost use Rattle.std.specs.Prelude.{◌≡◌};
ghost use Rattle.outcomes.specs.Firmware.{number};
ghost use Rattle.outcomes.specs.CallNumbers.{apply_number};
ghost use Rattle.flatness.specs.Profile.{flat_book_of, query_flat};
ghost use Rattle.flatly.specs.Outcome.{flat_step_answer, flat_step_area, flat_run_answer, flat_run_area, flat_run_answer_area, flat_book_number, flat_query_number};

#[unsafe(no_mangle)]
pub extern "C" fn pitxargole_flat_book(book: &[u8]) -> u64
    ensures { result ≡ flat_book_number (flat_book_of book.now) }
{
    profile::firmware::pitxargole_flat_book(book)
}

#[unsafe(no_mangle)]
pub extern "C" fn pitxargole_flat_query(book: &[u8], query: &[u8]) -> u64
    ensures { result ≡ flat_query_number (query_flat book.now query.now) }
{
    profile::firmware::pitxargole_flat_query(book, query)
}

#[unsafe(no_mangle)]
pub extern "C" fn pitxargole_flat_step(book: &[u8], query: &[u8], area: &mut [u8]) -> u64
    ensures answer { result ≡ apply_number (flat_step_answer book.now query.now area.old) }
    ensures area { area.new ≡ flat_step_area book.now query.now area.old }
{
    profile::firmware::pitxargole_flat_step(book, query, area)
}

#[unsafe(no_mangle)]
pub extern "C" fn pitxargole_flat_run(
    budget: u32,
    book: &[u8],
    query: &[u8],
    area: &mut [u8],
    answer: &mut [u8],
) -> u64
    ensures said { result ≡ number (flat_run_answer book.now query.now budget area.old answer.old) }
    ensures area { area.new ≡ flat_run_area book.now query.now budget area.old answer.old }
    ensures answer { answer.new ≡ flat_run_answer_area book.now query.now budget area.old answer.old }
{
    profile::firmware::pitxargole_flat_run(budget, book, query, area, answer)
}
