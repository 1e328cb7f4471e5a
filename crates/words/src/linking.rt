// The lists of a book's clauses, built once when it is opened (document 02, C-22).
ghost use Rattle.std.specs.Prelude.{◌≡◌, ℕ, ◌+◌, ◌*◌, ◌<◌, ◌≤◌, length, get_or, set};
ghost use Rattle.words.specs.Held.{key};
ghost use Rattle.words.specs.Lists.{Built};

use crate::lists::{LISTS, list_of};
use crate::shelf::NEXT;
use crate::{get, word};

// No clause on any list yet: each starts past the last one.
fn empty(shelf: &mut [u16], clauses: usize)
    requires { (clauses ≤ 512) × (256 ≤ length shelf.old) }
    ensures { ((h : ℕ) → h < 256 → get_or shelf.new h 0 ≡ clauses) × ((x : ℕ) → 256 ≤ x → get_or shelf.new x 0 ≡ get_or shelf.old x 0) }
{
    shelf[..LISTS].fill(clauses as u16);
}

// The clause number i before those of the list h.
fn prepend(shelf: &mut [u16], h: usize, i: usize)
    requires { (h < 256) × (i < 512) × (4 * i + 259 < length shelf.old) }
    ensures { shelf.new ≡ set (set shelf.old (4 * i + 259) (get_or shelf.old h 0)) h i }
{
    shelf[4 * i + NEXT] = shelf[h];
    shelf[h] = i as u16;
}

// From the last clause to the first, so that each list is in the order of the book.
pub fn link(book: &[u32], starts: &[u16], clauses: usize, shelf: &mut [u16])
    requires { (clauses ≤ 512) × (clauses ≤ length starts.now) × (4 * clauses + 260 ≤ length shelf.old) × ((i : ℕ) → i < clauses → get_or starts.now i 0 < length book.now) }
    ensures { Built clauses 0 (key book.now starts.now) shelf.old shelf.new }
{
    empty(shelf, clauses);
    for i in (0..clauses).rev() {
        let s = get(starts, i);
        let h = list_of(word(book, s));
        prepend(shelf, h, i);
    }
}
