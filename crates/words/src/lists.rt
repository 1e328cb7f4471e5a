// Clauses found along their lists (document 02, C-22). A list has the clauses whose predicates' numbers leave one remainder by 256, in the order of the
// book; one of another predicate costs a comparison.
ghost use Rattle.std.specs.Prelude.{◌≡◌, List, ℕ, suc, ◌%◌, ◌<◌, ◌≤◌, length};
ghost use Rattle.search.specs.Next.{Book};
ghost use Rattle.words.specs.Held.{BookOn, key, starts};
ghost use Rattle.words.specs.Lists.{head_word, OnList, Found};

use crate::shelf::{NEXT, START, clauses, entry};
use crate::{get, word};

// How many lists there are.
pub const LISTS: usize = 256;

// The list of a word's predicate: the remainder of its number, which is the low part of the word.
pub fn list_of(u: u32) -> usize
    ensures { (result ≡ u % 256) × (result < 256) }
{
    (u % 256) as usize
}

// The first clause of the list of u.
fn first(shelf: &[u16], u: u32) -> usize
    requires { (book : List ℕ) × (P : Book) × BookOn book shelf.now P }
    ensures { (book : List ℕ) (P : Book) → BookOn book shelf.now P → OnList book shelf.now P (u % 256) 0 result }
{
    get(shelf, list_of(u))
}

// The next clause of the list on which the clause number i is.
fn next(shelf: &[u16], i: usize) -> usize
    requires { (book : List ℕ) × (P : Book) × BookOn book shelf.now P × (i < length P) }
    ensures { (book : List ℕ) (P : Book) → BookOn book shelf.now P → i < length P → OnList book shelf.now P (key book (starts (length P) shelf.now) i) (suc i) result }
{
    entry(shelf, NEXT, i)
}

// The first clause of the list of u from the number `from` on.
fn seek(shelf: &[u16], u: u32, from: usize) -> usize
    requires { (book : List ℕ) × (P : Book) × BookOn book shelf.now P × (from ≤ length P) }
    ensures { (book : List ℕ) (P : Book) → BookOn book shelf.now P → OnList book shelf.now P (u % 256) from result }
{
    let mut i = first(shelf, u);
    while i < from {
        i = next(shelf, i);
    }
    i
}

// Along the list of u from its clause number `at` on: the first whose head begins with u.
fn along(book: &[u32], shelf: &[u16], u: u32, at: usize) -> usize
    requires { (P : Book) × BookOn book.now shelf.now P }
    ensures { (P : Book) (from : ℕ) → BookOn book.now shelf.now P → from ≤ length P → OnList book.now shelf.now P (u % 256) from at → Found book.now shelf.now P u from result }
{
    let all = clauses(shelf);
    let mut i = at;
    while i < all {
        let s = entry(shelf, START, i);
        if word(book, s) == u {
            return i;
        }
        i = next(shelf, i);
    }
    all
}

// The first clause from a number on whose head begins with the word u; how many clauses there are where there is none. That number and no None: a list ends
// with it on the shelf, and each walk along one (choosing::pick, whose form document 01 gives) compares its number with the count anyhow.
pub fn find(book: &[u32], shelf: &[u16], u: u32, from: usize) -> usize
    requires { (P : Book) × BookOn book.now shelf.now P × (from ≤ length P) }
    ensures { (P : Book) → BookOn book.now shelf.now P → Found book.now shelf.now P u from result }
{
    let at = seek(shelf, u, from);
    along(book, shelf, u, at)
}

// The next one behind the clause number i, whose head begins so too.
pub fn find_next(book: &[u32], shelf: &[u16], u: u32, i: usize) -> usize
    requires { (P : Book) × BookOn book.now shelf.now P × (i < length P) }
    ensures { (P : Book) → BookOn book.now shelf.now P → i < length P → head_word book.now shelf.now (length P) i ≡ u → Found book.now shelf.now P u (suc i) result }
{
    let at = next(shelf, i);
    along(book, shelf, u, at)
}
