// Whether the arguments of an entry are good.
ghost use Rattle.outcomes.specs.Outcome.{refusal};
ghost use Rattle.outcomes.specs.Refusals.{Admits};

use records::check_query;

// What is refused: "codes 1 to 19 refuse the input", with a place. In a definition code 0 refuses nothing.
#[derive(Clone, Copy)]
pub struct Admitted {
    pub code: u8,
    pub place: u32,
}

// "Order: area; whole book; whole query." The query's check "takes the book and checks it first" (document 02, C-18).
pub fn admit(book: &[u8], query: &[u8], area: usize) -> Result<(), Admitted>
    ensures { Admits book.now query.now area result }
{
    if area < 16387 {
        return Err(Admitted { code: 1, place: 0 });
    }
    let both = check_query(book, query);
    if both.code != 0 {
        return Err(Admitted {
            code: both.code,
            place: both.place as u32,
        });
    }
    Ok(())
}
