// Rules typed on a laptop (document 02, C-13).
#![tactic(auto)]

ghost use Rattle.std.specs.Prelude.{◌≡◌, ◌<◌, ◌≤◌, length, Ok};
ghost use Rattle.storage.specs.Storage.{Written};
ghost use Rattle.readouts.specs.Outcome.{refusal, read_answer, read_book, names_read};
ghost use Rattle.readouts.specs.Is.{Is};
ghost use Rattle.texts.specs.Faults.{number};
ghost use Rattle.texts.specs.Finished.{Came, Named, Finished, KeptOne, list_bytes, list_size};

use crate::places::formula_place;
use drafts::Draft;
use listing::{measure, put_bytes, put_names};
use pieces::Refusal;
use reader::walking::walk;
use readouts::ReadText;
use scanning::find_arities;

pub mod places; // where a formula stands

// The code of a text that is read (document 02, C-13).
const READ: u8 = 0;

fn refusal(code: u8, place: usize) -> ReadText
    requires { place ≤ 65536 }
    ensures { result ≡ refusal code place }
{
    ReadText {
        code,
        place: place as u32,
        book: 0,
        names: 0,
    }
}

// Why a text is refused that the reader did not refuse.
#[derive(Clone, Copy)]
enum Fault {
    Text, // the text is too long
    Book, // the finished book is too long
    Arities, // a predicate has two arities
    Room, // an area is too small
}

// The number of a fault in the table of codes (document 02, C-13).
impl From<Fault> for u8 {
    ghost from_gives = { λ fault n. n ≡ number fault };

    fn from(fault: Fault) -> u8 {
        match fault {
            Fault::Text => 40,
            Fault::Book => 5,
            Fault::Arities => 7,
            Fault::Room => 43,
        }
    }
}

fn refused(fault: Fault, place: usize) -> ReadText
    requires { place ≤ 65536 }
    ensures { result ≡ refusal (number fault) place }
{
    refusal(u8::from(fault), place)
}

fn list_size(lens: &[u8], b: Draft) -> usize
    requires { (b.constants ≤ 11264) × (b.compounds ≤ 8448) × (b.predicates ≤ 8448) × (28160 ≤ length lens.now) }
    ensures { (result ≡ list_size lens.now b) × (result ≤ 16777216) }
{
    let constants = measure(&lens[..b.constants]);
    let compounds = measure(&lens[11264..11264 + b.compounds]);
    let predicates = measure(&lens[19712..19712 + b.predicates]);
    constants + (compounds + predicates)
}

// "entries rise by kind, then number"
fn put_list(area: &mut [u8], text: &[u8], starts: &[u16], lens: &[u8], b: Draft) -> usize
    requires { Named text.now starts.now lens.now b × (list_size lens.now b ≤ length area.old) }
    ensures { Written (list_bytes text.now starts.now lens.now b) area.old area.new result }
{
    let from = put_names(area, text, &starts[..b.constants], &lens[..b.constants], 2);
    let rest = &mut area[from..];
    let more = put_names(
        rest,
        text,
        &starts[11264..11264 + b.compounds],
        &lens[11264..11264 + b.compounds],
        3,
    );
    let end = from + more;
    let last = &mut area[end..];
    end + put_names(
        last,
        text,
        &starts[19712..19712 + b.predicates],
        &lens[19712..19712 + b.predicates],
        4,
    )
}

// "last 43, area too small for the finished book or names"
fn give(
    text: &[u8],
    book: &mut [u8],
    names: &mut [u8],
    starts: &[u16],
    lens: &[u8],
    image: &[u8],
    b: Draft,
) -> ReadText
    requires { KeptOne text.now starts.now lens.now image.now b }
    ensures { Is text.now book.old names.old result book.new names.new }
{
    let size = list_size(lens, b);
    if book.len() < image.len() {
        return refused(Fault::Room, 0);
    }
    if names.len() < size {
        return refused(Fault::Room, 0);
    }
    put_bytes(book, image, 0, image.len());
    put_list(names, text, starts, lens, b);
    ReadText {
        code: READ,
        place: 0,
        book: image.len() as u32,
        names: size as u32,
    }
}

// "7 just before 43"
fn judge(
    text: &[u8],
    book: &mut [u8],
    names: &mut [u8],
    starts: &[u16],
    lens: &[u8],
    image: &[u8],
    b: Draft,
) -> ReadText
    requires { Finished text.now starts.now lens.now image.now b }
    ensures { Is text.now book.old names.old result book.new names.new }
{
    match find_arities(image) {
        None => give(text, book, names, starts, lens, image, b),
        Some(k) => refused(Fault::Arities, formula_place(text, k)),
    }
}

// "at the text's length for a finished book over 32,768 bytes"
fn finish(
    text: &[u8],
    book: &mut [u8],
    names: &mut [u8],
    starts: &[u16],
    lens: &[u8],
    out: &mut [u8],
    b: Draft,
) -> ReadText
    requires { Came text.now out.old starts.now lens.now (Ok b) }
    ensures { Is text.now book.old names.old result book.new names.new }
{
    if 32769 < b.from {
        return refused(Fault::Book, text.len());
    }
    let end = b.from - 2;
    out[end] = 7;
    let stop = end + 1;
    judge(text, book, names, starts, lens, &out[0..stop], b)
}

fn answer(
    text: &[u8],
    book: &mut [u8],
    names: &mut [u8],
    starts: &[u16],
    lens: &[u8],
    out: &mut [u8],
    ended: Result<Draft, Refusal>,
) -> ReadText
    requires { Came text.now out.old starts.now lens.now ended }
    ensures { Is text.now book.old names.old result book.new names.new }
{
    match ended {
        Err(refused) => refusal(u8::from(refused.code), refused.place),
        Ok(b) => finish(text, book, names, starts, lens, out, b),
    }
}

// The storage of the reader.
fn read_short(text: &[u8], book: &mut [u8], names: &mut [u8]) -> ReadText
    requires { length text.now ≤ 65536 }
    ensures { Is text.now book.old names.old result book.new names.new }
{
    let mut starts = [0u16; 28160];
    let mut lens = [0u8; 28160];
    let mut heads = [0u16; 12288];
    let mut nexts = [0u16; 28160];
    let mut out = [0u8; 33800];
    let mut opens = [0u16; 256];
    let ended = walk(
        text,
        &mut starts,
        &mut lens,
        &mut heads,
        &mut nexts,
        &mut out,
        &mut opens,
    );
    answer(text, book, names, &starts, &lens, &mut out, ended)
}

// Reads a text as a book with its name list (document 02, C-13).
pub fn read_text(text: &[u8], book: &mut [u8], names: &mut [u8]) -> ReadText
    ensures answer { result ≡ read_answer text.now book.old names.old }
    ensures book { book.new ≡ read_book text.now book.old names.old }
    ensures names { names.new ≡ names_read text.now book.old names.old }
{
    if 65536 < text.len() {
        return refused(Fault::Text, 0);
    }
    read_short(text, book, names)
}
