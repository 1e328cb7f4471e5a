// What the checks of the flat profile find, each as the one number that C gets (document 02, C-20).
#![tactic(auto)]

ghost use Rattle.std.specs.Prelude.{◌≡◌};
ghost use Rattle.flatly.specs.Outcome.{flat_book_number, flat_query_number, BookNarrow, QueryNarrow};

use flatness::FlatBook;
use format::Check;
use numbers::pack;

pub fn book_number(r: FlatBook) -> u64
    requires { BookNarrow r }
    ensures { result ≡ flat_book_number r }
{
    let counts = r.predicates as u32 + 65536 * r.constants as u32;
    let first = if r.code == 0 { r.clauses } else { r.place };
    pack(r.code, first as u32, counts)
}

pub fn query_number(c: Check) -> u64
    requires { QueryNarrow c }
    ensures { result ≡ flat_query_number c }
{
    let first = if c.code == 0 { c.count } else { c.place };
    pack(c.code, first as u32, 0)
}
