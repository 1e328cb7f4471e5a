// How many distinct numbers the records of one kind have in a book (document 02, C-20).
ghost use Rattle.std.specs.Prelude.{◌≡◌, List, ◌+◌, ◌<◌, length, get_or};
ghost use Rattle.format.specs.declared.Record.{Record};
ghost use Rattle.format.specs.Reading.{body_length};
ghost use Rattle.format.specs.Format.{encode};
ghost use Rattle.format.specs.Arities.{nothing_met, recalled};
ghost use Rattle.flatness.specs.Marks.{kind_of, numbers_of, fresh, marked, new_at, Image};

use records::record::{next_at, number_at};

// What is counted: the constants, or the predicates of the formulas.
#[derive(Clone, Copy)]
pub enum Counted {
    Constants,
    Predicates,
}

// The kind of the records that have their numbers.
fn kind_of(what: Counted) -> u8
    ensures { result ≡ kind_of what }
{
    match what {
        Counted::Constants => 2,
        Counted::Predicates => 4,
    }
}

// Marks the number of the record at a place, where the record is of the kind and its number has no mark yet; and answers whether it was so.
fn mark(what: Counted, bytes: &[u8], at: usize, table: &mut [u8; 65536]) -> bool
    requires { at + body_length (get_or bytes.now at 0) < length bytes.now }
    ensures new { result ≡ new_at (kind_of what) (recalled table.old) bytes.now at }
    ensures table { recalled table.new ≡ marked (kind_of what) (recalled table.old) bytes.now at }
{
    if bytes[at] != kind_of(what) {
        return false;
    }
    let n = usize::from(number_at(bytes, at + 1));
    if table[n] != 0 {
        return false;
    }
    table[n] = 1;
    true
}

// The same of all records, with a table lent that has no mark.
fn count_marked(what: Counted, bytes: &[u8], table: &mut [u8; 65536]) -> usize
    requires unmarked { recalled table.old ≡ nothing_met }
    requires image { Image bytes.now }
    ensures { (rs : List Record) → bytes.now ≡ encode rs → result ≡ fresh nothing_met (numbers_of (kind_of what) rs) }
{
    let mut count = 0;
    let mut at = 0;
    while at < bytes.len() {
        if mark(what, bytes, at, table) {
            count += 1;
        }
        at = next_at(bytes, at);
    }
    count
}

pub fn count(what: Counted, bytes: &[u8]) -> usize
    requires { Image bytes.now }
    ensures { (rs : List Record) → bytes.now ≡ encode rs → result ≡ fresh nothing_met (numbers_of (kind_of what) rs) }
{
    let mut table = [0u8; 65536];
    count_marked(what, bytes, &mut table)
}
