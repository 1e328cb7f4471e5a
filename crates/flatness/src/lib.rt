// The flat profile (document 02, C-20): books and queries of "constants and variables only", checked and counted.
#![tactic(auto)]

ghost use Rattle.std.specs.Prelude.{◌≡◌, ◌<◌, ◌≤◌, length, MatchOption};
ghost use Rattle.format.specs.Reading.{code_base, byte_limit};
ghost use Rattle.flatness.specs.Profile.{compound_from, allowed_up_to, flat_check_of, book_flat, query_flat, flat_book_of};

use crate::counting::{Counted, count};
use format::{Check, Form};
use records::record::body_length;
use records::{byte_limit, check_book, check_query, code_base};

mod counting;

// What the flat check of a book answers: code, place, clauses, and how many distinct predicates and constants the book has. The code stays a number, as
// format::Check's does.
#[derive(Clone, Copy)]
pub struct FlatBook {
    pub code: u8,
    pub place: usize,
    pub clauses: usize,
    pub predicates: usize,
    pub constants: usize,
}

// Where the first compound record below a place is.
fn first_compound(bytes: &[u8], end: usize) -> Option<usize>
    requires { (end ≤ length bytes.now) × (length bytes.now ≤ 32768) }
    ensures { MatchOption result (end ≡ compound_from (length bytes.now) bytes.now 0 end) (λ at. (at < end) × (at ≡ compound_from (length bytes.now) bytes.now 0 end)) }
{
    let mut at = 0;
    while at < end {
        let kind = bytes[at];
        if kind == 3 {
            return Some(at);
        }
        at += 1 + body_length(kind);
    }
    None
}

// How far the plain check found the kinds of records allowed.
fn allowed_up_to(base: u8, plain: Check, size: usize) -> usize
    requires { (base ≤ 10) × (size ≤ 32768) × (allowed_up_to base plain size ≤ size) }
    ensures { result ≡ allowed_up_to base plain size }
{
    if plain.code == 0 {
        return size;
    }
    if plain.code == base + 2 {
        return plain.place;
    }
    plain.place + 1
}

// "8 for the book and 18 for the query at the compound record, straight after the kind test": a compound record that the plain check
// came to, and did not refuse for its kind.
fn flat_of(form: Form, plain: Check, bytes: &[u8]) -> Check
    requires { length bytes.now ≤ byte_limit form → allowed_up_to (code_base form) plain (length bytes.now) ≤ length bytes.now }
    ensures { result ≡ flat_check_of (code_base form) (byte_limit form) plain bytes.now }
{
    if byte_limit(form) < bytes.len() {
        return plain;
    }
    let base = code_base(form);
    let end = allowed_up_to(base, plain, bytes.len());
    match first_compound(bytes, end) {
        Some(place) => {
            Check {
                code: base + 8,
                place,
                count: 0,
            }
        }
        None => plain,
    }
}

fn book_flat(book: &[u8]) -> Check
    ensures { result ≡ book_flat book.now }
{
    flat_of(Form::Book, check_book(book), book)
}

pub fn check_flat_book(book: &[u8]) -> FlatBook
    ensures { result ≡ flat_book_of book.now }
{
    let found = book_flat(book);
    if found.code == 0 {
        return FlatBook {
            code: found.code,
            place: found.place,
            clauses: found.count,
            predicates: count(Counted::Predicates, book),
            constants: count(Counted::Constants, book),
        };
    }
    FlatBook {
        code: found.code,
        place: found.place,
        clauses: 0,
        predicates: 0,
        constants: 0,
    }
}

// The flat check of the book first, as the plain check of a query takes its book first (document 02, C-18).
pub fn check_flat_query(book: &[u8], query: &[u8]) -> Check
    ensures { result ≡ query_flat book.now query.now }
{
    let found = book_flat(book);
    if found.code == 0 {
        return flat_of(Form::Query, check_query(book, query), query);
    }
    found
}
