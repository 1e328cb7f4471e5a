// What printing and reading answer, each as the one number that C gets.
#![tactic(auto)]

ghost use Rattle.std.specs.Prelude.{◌≡◌};
ghost use Rattle.textnumbers.specs.Numbers.{TextNarrow, text_number, ReadNarrow, read_number, as_text, query_number};

use numbers::pack;
use printouts::Printout;
use questions::ReadQuery;
use readouts::ReadText;

pub fn text_number(p: Printout) -> u64
    requires { TextNarrow p }
    ensures { result ≡ text_number p }
{
    if p.code == 0 {
        return pack(p.code, p.bytes as u32, 0);
    }
    pack(p.code, p.place as u32, 0)
}

pub fn read_number(r: ReadText) -> u64
    requires { ReadNarrow r }
    ensures { result ≡ read_number r }
{
    if r.code == 0 {
        return pack(r.code, r.book, r.names);
    }
    pack(r.code, r.place, r.names)
}

pub fn query_number(r: ReadQuery) -> u64
    requires { ReadNarrow (as_text r) }
    ensures { result ≡ query_number r }
{
    // No `From`: this is the one place where a query's answer is taken for a text's.
    read_number(ReadText {
        code: r.code,
        place: r.place,
        book: r.query,
        names: r.names,
    })
}
