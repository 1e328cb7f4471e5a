// A query typed on a laptop, read against a book and its name list (document 02, C-13).
#![tactic(auto)]

ghost use Rattle.std.specs.Prelude.{◌≡◌, true, List, ◌∷◌, ◌++◌, ℕ, ◌+◌, ◌/◌, ◌%◌, ◌<◌, ◌≤◌, length, take};
ghost use Rattle.storage.specs.Storage.{Written};
ghost use Rattle.questions.specs.Outcome.{refusal, outcome, query_area, list_area};
ghost use Rattle.questions.specs.Is.{Is};
ghost use Rattle.queries.specs.Finished.{Read, SomeFinished, Finished, Ready};

use clashing::count_kept;
use clashing::places::formula_at;
use known::{Known, known_names};
use laying::{Draft, lay_text};
use listing::put_bytes;
use questions::ReadQuery;
use records::check_book;
use relisting::{list_size, put_list};
use turns::check_text;

// The names that were known, and what is laid down.
#[derive(Clone, Copy)]
pub struct Reading {
    pub known: Known,
    pub draft: Draft,
}

// Codes that are this entry's own (document 02, C-13); those of a book and of a text are their checks'.
const READ: u8 = 0;

const TWO_ARITIES: u8 = 17;

const NO_ROOM: u8 = 43;

const NO_LIST: u8 = 45;

fn refusal(code: u8, place: u32) -> ReadQuery
    ensures { result ≡ refusal code place }
{
    ReadQuery {
        code,
        place,
        query: 0,
        names: 0,
    }
}

// The record of a goal, and its nodes behind it.
fn put_query(area: &mut [u8], nodes: &[u8], formulas: usize)
    requires { (length nodes.now + 3 ≤ length area.old) × (formulas < 65536) }
    ensures { Written (6 ∷ formulas / 256 ∷ formulas % 256 ∷ nodes.now) area.old area.new (length nodes.now + 3) }
{
    let head = [6u8, (formulas / 256) as u8, (formulas % 256) as u8];
    put_bytes(area, &head, 0, 3);
    put_bytes(&mut area[3..], nodes, 0, nodes.len());
}

// "last 43, an area too small"
fn give(
    text: &[u8],
    names: &[u8],
    query: &mut [u8],
    list: &mut [u8],
    table: &[u16],
    nodes: &[u8],
    g: Known,
    d: Draft,
) -> ReadQuery
    requires { SomeFinished text.now names.now table.now nodes.now g d }
    ensures { (book : List ℕ) → Finished text.now book names.now table.now nodes.now g d → Is text.now book names.now query.old list.old result query.new list.new }
{
    let size = list_size(names, table, d);
    let bytes = nodes.len() + 3;
    if query.len() < bytes {
        return refusal(NO_ROOM, 0);
    }
    if list.len() < size {
        return refusal(NO_ROOM, 0);
    }
    put_query(query, nodes, d.formulas);
    put_list(list, names, text, table, g, d);
    ReadQuery {
        code: READ,
        place: 0,
        query: bytes as u32,
        names: size as u32,
    }
}

// "17 at that formula's first byte"
fn judge(
    text: &[u8],
    book: &[u8],
    names: &[u8],
    query: &mut [u8],
    list: &mut [u8],
    table: &[u16],
    out: &[u8],
    c: Reading,
) -> ReadQuery
    requires { Read text.now book.now names.now table.now out.now c.known c.draft }
    ensures { Is text.now book.now names.now query.old list.old result query.new list.new }
{
    let d = c.draft;
    let g = c.known;
    let end = d.len;
    let nodes = &out[0..end];
    if let Some(k) = count_kept(book, nodes) {
        return refusal(TWO_ARITIES, formula_at(text, k) as u32);
    }
    give(text, names, query, list, table, nodes, g, d)
}

// The storage of the reader.
fn read_known(
    text: &[u8],
    book: &[u8],
    names: &[u8],
    query: &mut [u8],
    list: &mut [u8],
    known: Known,
) -> ReadQuery
    requires { Ready text.now book.now names.now known }
    ensures { Is text.now book.now names.now query.old list.old result query.new list.new }
{
    let mut table = [0u16; 32768];
    let mut out = [0u8; 16384];
    let mut opens = [0u16; 4096];
    let draft = lay_text(text, names, &mut table, &mut out, &mut opens, known);
    judge(
        text,
        book,
        names,
        query,
        list,
        &table,
        &out,
        Reading { known, draft },
    )
}

// Reads a text as a query against a book and its name list (document 02, C-13).
pub fn read_query(
    text: &[u8],
    book: &[u8],
    names: &[u8],
    query: &mut [u8],
    list: &mut [u8],
) -> ReadQuery
    ensures answer { result ≡ outcome text.now book.now names.now query.old list.old }
    ensures query { query.new ≡ query_area text.now book.now names.now query.old list.old }
    ensures list { list.new ≡ list_area text.now book.now names.now query.old list.old }
{
    let checked = check_book(book);
    if checked.code != 0 {
        return refusal(checked.code, checked.place as u32);
    }
    let Some(known) = known_names(names) else {
        return refusal(NO_LIST, 0);
    };
    let found = check_text(text);
    if found.code != 0 {
        return refusal(found.code, found.place);
    }
    read_known(text, book, names, query, list, known)
}
