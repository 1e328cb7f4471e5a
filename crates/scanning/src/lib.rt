// Whether a book keeps one arity for each predicate number (document 02, C-18). The table has a byte for each number, 0 of one that was not met, and one more than its arity of one
// that was.
#![tactic(auto)]

ghost use Rattle.std.specs.Prelude.{◌≡◌, true, ◌||◌, ◌+◌, ◌<◌, ◌≤◌, length, eqb};
ghost use Rattle.terms.specs.When.{◌⇒◌∣◌};
ghost use Rattle.format.specs.declared.Record.TheVariants.{Formula};
ghost use Rattle.format.specs.Format.{GoodBook, encode_book, record_kind};
ghost use Rattle.format.specs.Reading.{in_range};
ghost use Rattle.format.specs.Decode.{book_of};
ghost use Rattle.format.specs.Arities.{book_uses};
ghost use Rattle.readouts.specs.Clash.{arities};
ghost use Rattle.scanning.specs.Remembers.{Remembers};
ghost use Rattle.scanning.specs.Meeting.{MeetsAll, Met};

use format::Record;
use records::record::{next_at, record_at};

fn same(met: u8, arity: u8) -> bool
    ensures { result ≡ (eqb met 0 || eqb met (arity + 1)) }
{
    met == 0 || met - 1 == arity
}

fn remember_use(table: &mut [u8], p: usize, n: u8) -> bool
    requires { (length table.old ≡ 65536) × (p < 65536) × (n ≤ 8) }
    ensures { Remembers table.old table.new (Formula p n) result }
{
    if !same(table[p], n) {
        return false;
    }
    table[p] = n + 1;
    true
}

// Whether a record keeps to what is remembered, which it is added to.
fn remember(table: &mut [u8], item: Record) -> bool
    requires { (length table.old ≡ 65536) × (in_range item ≡ true) }
    ensures { Remembers table.old table.new item result }
{
    match item {
        Record::Formula(p, n) => remember_use(table, usize::from(p), n),
        _ => true,
    }
}

// How many formulas were read, with this record.
fn counted(item: Record, k: usize) -> usize
    requires { k < 65536 }
    ensures { result ≡ (eqb (record_kind item) 4 ⇒ k + 1 ∣ k) }
{
    match item {
        Record::Formula(_, _) => k + 1,
        _ => k,
    }
}

// How many formulas of an image stand before the first that does not keep to what the table remembers. Those before it are added to the table.
pub fn find_clash(image: &[u8], table: &mut [u8]) -> Option<usize>
    requires { MeetsAll image.now × (length table.old ≡ 65536) }
    ensures { Met image.now table.old table.new result }
{
    let mut k = 0;
    let mut i = 0;
    while i < image.len() {
        let item = record_at(image, i, image[i]);
        if !remember(table, item) {
            return Some(k);
        }
        k = counted(item, k);
        i = next_at(image, i);
    }
    None
}

// How many formulas of a book stand before the first that uses a predicate number with another arity.
pub fn find_arities(image: &[u8]) -> Option<usize>
    requires { GoodBook (book_of image.now) × (encode_book (book_of image.now) ≡ image.now) }
    ensures { result ≡ arities (book_uses (book_of image.now)) }
{
    let mut table = [0u8; 65536];
    find_clash(image, &mut table)
}
