// What a check remembers of predicate numbers (document 02, C-18): a byte for each, 0 of one that was not met, and one more than its arity of one that was.
// The table may have too few bytes for a number: none is remembered of it then.
ghost use Rattle.std.specs.Prelude.{◌≡◌, true, ◌||◌, eqb, ◌+◌, ◌≤◌, ◌<◌, length, get_or, IsSome, OnSome};
ghost use Rattle.format.specs.Reading.{body_length, record_at, in_range};
ghost use Rattle.format.specs.Arities.{keeps, meets, recalled};

use crate::record::number_at;
use format::Record;

// Whether what is remembered of a formula's predicate number, if it was met, is this arity.
#[tactic(auto, using(crate::proofs::Tables::same_test, format::proofs::Tests::tests))]
pub fn same(met: u8, arity: u8) -> bool
    ensures { result ≡ (eqb met 0 || eqb met (arity + 1)) }
{
    met == 0 || met - 1 == arity
}

// What is remembered of a predicate number.
fn remembered(table: &[u8], p: usize) -> u8
    ensures { result ≡ recalled table.now p }
{
    table.get(p).copied().unwrap_or(0)
}

// "At the second formula's record": a formula whose number had another arity before is what this refuses.
#[tactic(auto, unfolding(format::specs::Arities::keeps))]
pub fn keeps(table: &[u8], item: Record) -> bool
    ensures { result ≡ keeps (recalled table.now) item }
{
    match item {
        Record::Formula(p, arity) => same(remembered(table, usize::from(p)), arity),
        _ => true,
    }
}

// Remembers the predicate number and the arity of the formula at a place; of other records there is nothing to remember. None where the table has no byte for it.
pub fn meet(table: &mut [u8], bytes: &[u8], at: usize) -> Option<()>
    requires at_in_bounds { at + body_length (get_or bytes.now at 0) < length bytes.now }
    requires at_value { in_range (record_at bytes.now at (get_or bytes.now at 0)) ≡ true }
    ensures met { OnSome result (recalled table.new ≡ meets (recalled table.old) (record_at bytes.now at (get_or bytes.now at 0))) }
    ensures wide { 65536 ≤ length table.old → IsSome result }
{
    if bytes[at] != 4 {
        return Some(());
    }
    let p = usize::from(number_at(bytes, at + 1));
    if table.len() <= p {
        return None;
    }
    table[p] = bytes[at + 3] + 1;
    Some(())
}
