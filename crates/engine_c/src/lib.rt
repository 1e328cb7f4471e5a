// For C firmware, the run and the two calls of a step: "called from there with numbers and byte areas only". Each is engine's function of its name.
#![tactic(auto)]

ghost use Rattle.std.specs.Prelude.{◌≡◌, ◌/◌, ◌%◌, ◌^◌};
ghost use Rattle.outcomes.specs.Outcome.{run_answer, run_area, run_answer_area, pick_answer, apply_answer, apply_area};
ghost use Rattle.outcomes.specs.Firmware.{number};
ghost use Rattle.outcomes.specs.CallNumbers.{pick_number, apply_number};

#[unsafe(no_mangle)]
pub extern "C" fn pitxargole_code(answer: u64) -> u8
    ensures { result ≡ answer % 256 }
{
    engine::pitxargole_code(answer)
}

// The place of the first fault for codes 1 to 19, and the bytes written otherwise.
#[unsafe(no_mangle)]
pub extern "C" fn pitxargole_place_or_bytes(answer: u64) -> u32
    ensures { result ≡ answer / 256 % 2 ^ 24 }
{
    engine::pitxargole_place_or_bytes(answer)
}

#[unsafe(no_mangle)]
pub extern "C" fn pitxargole_steps(answer: u64) -> u32
    ensures { result ≡ answer / 2 ^ 32 }
{
    engine::pitxargole_steps(answer)
}

#[unsafe(no_mangle)]
pub extern "C" fn pitxargole_run(
    budget: u32,
    book: &[u8],
    query: &[u8],
    area: &mut [u8],
    answer: &mut [u8],
) -> u64
    ensures said { result ≡ number (run_answer book.now query.now budget area.old answer.old) }
    ensures area { area.new ≡ run_area book.now query.now budget area.old answer.old }
    ensures answer { answer.new ≡ run_answer_area book.now query.now budget area.old answer.old }
{
    engine::pitxargole_run(budget, book, query, area, answer)
}

// The pick and the apply call for C (document 02, C-16): the clause number stands in the top 32 bits.
#[unsafe(no_mangle)]
pub extern "C" fn pitxargole_pick(book: &[u8], query: &[u8]) -> u64
    ensures { result ≡ pick_number (pick_answer book.now query.now) }
{
    engine::pitxargole_pick(book, query)
}

#[unsafe(no_mangle)]
pub extern "C" fn pitxargole_apply(clause: u32, book: &[u8], query: &[u8], area: &mut [u8]) -> u64
    ensures answer { result ≡ apply_number (apply_answer book.now query.now clause area.old) }
    ensures area { area.new ≡ apply_area book.now query.now clause area.old }
{
    engine::pitxargole_apply(clause, book, query, area)
}
