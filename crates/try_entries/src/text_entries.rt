// The entries that read rules and a query as text (document 02, C-13), each with its line. What it leaves in the lent areas is what the entry's contract says.
ghost use Rattle.std.specs.Prelude.{◌≡◌};
ghost use Rattle.questions.specs.Outcome.{query_area, list_area};
ghost use Rattle.readouts.specs.Outcome.{read_book, names_read};

use crate::line::{say, sum};

pub fn rules(rt: &impl Print, text: &[u8], book: &mut [u8], names: &mut [u8])
    ensures book { book.new ≡ read_book text.now book.old names.old }
    ensures names { names.new ≡ names_read text.now book.old names.old }
{
    let a = texts::read_text(text, book, names);
    say(
        rt,
        &[
            u64::from(a.code),
            u64::from(a.place),
            u64::from(a.book),
            u64::from(a.names),
            sum(book),
        ],
        sum(names),
    );
}

pub fn query(
    rt: &impl Print,
    text: &[u8],
    book: &[u8],
    names: &[u8],
    query: &mut [u8],
    list: &mut [u8],
)
    ensures query { query.new ≡ query_area text.now book.now names.now query.old list.old }
    ensures list { list.new ≡ list_area text.now book.now names.now query.old list.old }
{
    let a = queries::read_query(text, book, names, query, list);
    say(
        rt,
        &[
            u64::from(a.code),
            u64::from(a.place),
            u64::from(a.query),
            u64::from(a.names),
            sum(query),
        ],
        sum(list),
    );
}
