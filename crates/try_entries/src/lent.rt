// The entries that are lent areas, and the checks, but for the plain one of a book, and the picks, which have no use for them. Their items have: a run's budget or an apply's clause number (4 bytes), of
// which a check, a single step and a pick have no use; the goal area's length (4 bytes), its first byte and what each byte has more than the one before it, modulo
// 256 (1 byte each); the same of the answer area, of which only a run has use; the book's length (4 bytes), the book, and the query. Where a book is printed, the list
// of names stands in the query's place; where a goal or an answer is, that and behind it the list, and the goal's length in the place of the budget.
// A text to be read as rules stands in the book's place, and the areas are for the book and its names; one to be read as a query stands where a goal to be printed does, and the areas are for its image and
// the names.
ghost use Rattle.std.specs.Prelude.{◌≡◌, ◌≤◌, length, nat_le, is_ok};
ghost use Rattle.try_entries.specs.Item.{holds_book, complete};

use crate::item::{Damaged, Entry};
use crate::{entries, flat_entries, number, print, text_entries};

// What an area holds before the call.
fn fill(area: &mut [u8], first: u8, more: u8) {
    let mut next = first;
    for byte in area {
        *byte = next;
        next = next.wrapping_add(more);
    }
}

// The list of names stands behind a goal or a query's text; a length past the end is all there is.
fn apart_from_names(both: &[u8], length: u32) -> (&[u8], &[u8]) {
    both.split_at(both.len().min(length as usize))
}

fn call(
    rt: &impl Print,
    entry: Entry,
    number: u32,
    book: &[u8],
    query: &[u8],
    area: &mut [u8],
    answer: &mut [u8],
) {
    let (front, names) = apart_from_names(query, number);
    match entry {
        Entry::CheckQuery => entries::check_query(rt, book, query),
        Entry::Step => entries::step(rt, book, query, area),
        Entry::Run => entries::run(rt, book, query, number, area, answer),
        Entry::RunForC => entries::run_for_c(rt, book, query, number, area, answer),
        Entry::Pick => entries::pick(rt, book, query),
        Entry::Apply => entries::apply(rt, book, query, number, area),
        Entry::PickForC => entries::pick_for_c(rt, book, query),
        Entry::ApplyForC => entries::apply_for_c(rt, book, query, number, area),
        Entry::FlatCheckBook => flat_entries::check_book(rt, book),
        Entry::FlatCheckQuery => flat_entries::check_query(rt, book, query),
        Entry::FlatStep => flat_entries::step(rt, book, query, area),
        Entry::FlatRun => flat_entries::run(rt, book, query, number, area, answer),
        Entry::FlatBookForC => flat_entries::book_for_c(rt, book),
        Entry::FlatQueryForC => flat_entries::query_for_c(rt, book, query),
        Entry::FlatStepForC => flat_entries::step_for_c(rt, book, query, area),
        Entry::FlatRunForC => flat_entries::run_for_c(rt, book, query, number, area, answer),
        Entry::PrintBook => print::book(rt, book, query, area),
        Entry::PrintGoal => print::goal(rt, book, front, names, area),
        Entry::PrintAnswer => print::answer(rt, book, front, names, area),
        Entry::ReadRules => text_entries::rules(rt, book, area, answer),
        Entry::ReadQuery => text_entries::query(rt, front, book, names, area, answer),
    }
}

// Book and query one behind the other.
fn apart(
    rt: &impl Print,
    entry: Entry,
    number: u32,
    both: &[u8],
    book_length: usize,
    area: &mut [u8],
    answer: &mut [u8],
) -> Result<(), Damaged>
    ensures { is_ok result ≡ nat_le book_length (length both.now) }
{
    let (book, query) = both.split_at_checked(book_length).ok_or(Damaged)?;
    call(rt, entry, number, book, query, area, answer);
    Ok(())
}

// The item has its fields, and the areas lent are as long as it says.
fn with_areas(
    rt: &impl Print,
    entry: Entry,
    item: &[u8],
    area: &mut [u8],
    answer: &mut [u8],
) -> Result<(), Damaged>
    requires { 20 ≤ length item.now }
    ensures { is_ok result ≡ holds_book item.now }
{
    fill(area, item[8], item[9]);
    fill(answer, item[14], item[15]);
    apart(
        rt,
        entry,
        number::at(item, 0),
        &item[20..],
        number::at(item, 16) as usize,
        area,
        answer,
    )
}

// The item has all that its entry is called with, or is damaged; it is tried where it has.
pub fn entry(
    rt: &impl Print,
    entry: Entry,
    item: &[u8],
    area: &mut [u8],
    answer: &mut [u8],
) -> Result<(), Damaged>
    ensures { is_ok result ≡ complete item.now (length area.old) (length answer.old) }
{
    if item.len() < 20 {
        return Err(Damaged);
    }
    let goal = number::at(item, 4) as usize;
    if area.len() < goal {
        return Err(Damaged);
    }
    let said = number::at(item, 10) as usize;
    if answer.len() < said {
        return Err(Damaged);
    }
    with_areas(rt, entry, item, &mut area[..goal], &mut answer[..said])
}
