// Where a query uses a predicate with another arity than its book, or than it did itself (document 02, C-18): how many formulas come before the first that does.
#![tactic(auto)]

ghost use Rattle.std.specs.Prelude.{◌≡◌, length};
ghost use Rattle.format.specs.Reading.{book_verdict};
ghost use Rattle.format.specs.Arities.{nothing_met, recalled};
ghost use Rattle.clashing.specs.Meeting.{Nodes, Kept};

use scanning::find_clash;

pub mod places; // where a formula stands

// With a table lent that remembers nothing.
fn meet_both(book: &[u8], nodes: &[u8], table: &mut [u8]) -> Option<usize>
    requires book_value { ((book_verdict book.now).code ≡ 0) × Nodes nodes.now }
    requires table_len { (length table.old ≡ 65536) × (recalled table.old ≡ nothing_met) }
    ensures { Kept book.now nodes.now result }
{
    find_clash(book, table);
    find_clash(nodes, table)
}

// How many formulas of a query keep to its book and to themselves, if one does not.
pub fn count_kept(book: &[u8], nodes: &[u8]) -> Option<usize>
    requires { ((book_verdict book.now).code ≡ 0) × Nodes nodes.now }
    ensures { Kept book.now nodes.now result }
{
    let mut table = [0u8; 65536];
    meet_both(book, nodes, &mut table)
}
