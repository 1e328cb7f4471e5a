// Prints a book, or a goal, with its name list as text (document 02, C-14).
#![tactic(auto)]

ghost use Rattle.std.specs.Prelude.{◌≡◌, List, [], length};
ghost use Rattle.format.specs.Format.{encode};
ghost use Rattle.namelist.specs.List.{Entry, naming};
ghost use Rattle.namelist.specs.ListLaws.{Stands};
ghost use Rattle.printouts.specs.declared.Turn.TheVariants.{Start};
ghost use Rattle.printouts.specs.Walk.{walked};
ghost use Rattle.printouts.specs.Laying.{Lays, reach};
ghost use Rattle.printouts.specs.Outcome.{refusal, print_answer, print_area, goal_answer, goal_area};
ghost use Rattle.printouts.specs.Answer.{found_answer, found_area};
ghost use Rattle.printer.specs.Parts.{items, PrintsImage};
ghost use Rattle.printer.specs.Faults.{number};

use crate::naming::{all_named, check_names};
use crate::writing::put_record;
use answers::check_answer;
use pen::Pen;
use printouts::{Printout, Turn};
use records::record::{next_at, record_at};
use records::{check_book, check_query};

mod naming;
mod writing;

// The code of a text that is written (document 02, C-14).
const PRINTED: u8 = 0;

// The text of an image, as far as the area has room; its length, as far as 65,537.
fn walk(area: &mut [u8], names: &[u8], image: &[u8], stack: &mut [u8]) -> usize
    requires stands { (l : List Entry) × Stands names.now 0 l }
    requires image_value { (image.now ≡ encode (items image.now)) × (length stack.old ≡ 4096) }
    ensures { (l : List Entry) → Stands names.now 0 l → Lays area.old area.new 0 result (walked (naming l) Start [] (items image.now)) }
{
    let mut pen = Pen {
        at: 0,
        top: 4096,
        turn: Turn::Start,
    };
    let mut i = 0;
    while i < image.len() {
        let item = record_at(image, i, image[i]);
        pen = put_record(area, names, stack, pen, item);
        i = next_at(image, i);
    }
    pen.at
}

fn measure(names: &[u8], image: &[u8]) -> usize
    requires stands { (l : List Entry) × Stands names.now 0 l }
    requires image_value { image.now ≡ encode (items image.now) }
    ensures { (l : List Entry) → Stands names.now 0 l → result ≡ reach 0 (walked (naming l) Start [] (items image.now)) }
{
    let mut none = [0u8; 1];
    let mut stack = [0u8; 4096];
    walk(&mut none, names, image, &mut stack)
}

fn write(area: &mut [u8], names: &[u8], image: &[u8]) -> usize
    requires stands { (l : List Entry) × Stands names.now 0 l }
    requires image_value { image.now ≡ encode (items image.now) }
    ensures { (l : List Entry) → Stands names.now 0 l → Lays area.old area.new 0 result (walked (naming l) Start [] (items image.now)) }
{
    let mut stack = [0u8; 4096];
    walk(area, names, image, &mut stack)
}

// What is answered for a book or a goal that its check refuses: what the check said.
fn refusal(code: u8, place: usize) -> Printout
    ensures { result ≡ refusal code place }
{
    Printout {
        code,
        place,
        bytes: 0,
    }
}

// Why the text of a good image is not written.
#[derive(Clone, Copy)]
enum Fault {
    Unnamed, // a used symbol has no name
    NoList, // the names are no list
    NoRoom, // the text is too long, or the area too small
}

// The number of a fault in the table of codes (document 02, C-14).
impl From<Fault> for u8 {
    ghost from_gives = { λ fault n. n ≡ number fault };

    fn from(fault: Fault) -> u8 {
        match fault {
            Fault::Unnamed => 44,
            Fault::NoList => 45,
            Fault::NoRoom => 46,
        }
    }
}

fn refused(why: Fault) -> Printout
    ensures { result ≡ refusal (number why) 0 }
{
    refusal(u8::from(why), 0)
}

// What is answered for an image that its check found good.
fn print_image(image: &[u8], names: &[u8], area: &mut [u8]) -> Printout
    requires { image.now ≡ encode (items image.now) }
    ensures { PrintsImage image.now names.now area.old area.new result }
{
    if !check_names(names) {
        return refused(Fault::NoList);
    }
    if !all_named(names, image) {
        return refused(Fault::Unnamed);
    }
    let n = measure(names, image);
    if 65536 < n {
        return refused(Fault::NoRoom);
    }
    if area.len() < n {
        return refused(Fault::NoRoom);
    }
    write(area, names, image);
    Printout {
        code: PRINTED,
        place: 0,
        bytes: n,
    }
}

// "Write a good book with its name list as text" (document 02, C-14). Three entries and no function over the check: each contract has definitions of its own,
// and what the three share is `print_image`.
pub fn print_book(book: &[u8], names: &[u8], area: &mut [u8]) -> Printout
    ensures answer { result ≡ print_answer book.now names.now area.old }
    ensures text { area.new ≡ print_area book.now names.now area.old }
{
    let found = check_book(book);
    if found.code == 0 {
        return print_image(book, names, area);
    }
    refusal(found.code, found.place)
}

// The same for a goal that is good by its book.
pub fn print_goal(book: &[u8], goal: &[u8], names: &[u8], area: &mut [u8]) -> Printout
    ensures answer { result ≡ goal_answer book.now goal.now names.now area.old }
    ensures text { area.new ≡ goal_area book.now goal.now names.now area.old }
{
    let found = check_query(book, goal);
    if found.code == 0 {
        return print_image(goal, names, area);
    }
    refusal(found.code, found.place)
}

// And for the answer of a run, whose variables go on from those of the closing goal (document 02, C-11).
pub fn print_answer(book: &[u8], answer: &[u8], names: &[u8], area: &mut [u8]) -> Printout
    ensures answer { result ≡ found_answer book.now answer.now names.now area.old }
    ensures text { area.new ≡ found_area book.now answer.now names.now area.old }
{
    let found = check_answer(book, answer);
    if found.code == 0 {
        return print_image(answer, names, area);
    }
    refusal(found.code, found.place)
}
