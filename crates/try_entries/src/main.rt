// Tries the entries on a stream of items from standard input, and writes a line for each: the answer's numbers and, for each area that is lent, a sum
// over all of its bytes.
//
// An item is its entry's number (1 byte), the length of what follows (4 bytes), and that: a book to check (1), or what goes to the check of a
// query (2), a single step (3), a run (4), the run for C (5), a pick (6), an apply (7), and these two for C (8, 9), as lent.rt has it; and in the flat profile
// the check of a book (10), that of a query (11), a single step (12) and a run (13), and these four for C (14 to 17); a book (18), a goal (19) or an answer (20) to be printed; a text to be read as rules (21), and one to be read as a query (22). Numbers are most significant byte first. A stream that ends inside an item, or has an item that is none of these, gets the line `damaged`, and no item after it is tried.
#![tactic(auto)]

ghost use Rattle.std.specs.Prelude.{◌≤◌, length};

mod entries;
mod flat_entries;
mod item;
mod lent;
mod line;
mod number;
mod print;
mod text_entries;

use crate::item::{Damaged, Entry};
use std::io;
use std::io::Read;

// The longest item, and the longest area that is lent.
const MOST: usize = 98_304;

// An entry's number, and the length of what follows.
const HEADER: usize = 5;

// The number of the entry that is lent no area.
const CHECK_BOOK: u8 = 1;

// Where an item is read to, and what is lent to its entry. They are arrays on the stack, so that the program needs no heap and can't run out of it.
#[derive(Drop)]
struct Room {
    item: [u8; MOST],
    area: [u8; MOST],
    answer: [u8; MOST],
}

impl Room {
    // Tries the item that was read last, of this length.
    fn try_item(&mut self, rt: &impl Print, number: u8, length: usize) -> Result<(), Damaged> {
        let item = self.item.get(..length).ok_or(Damaged)?;
        if number == CHECK_BOOK {
            entries::check_book(rt, item);
            return Ok(());
        }
        let entry = Entry::try_from(number)?;
        lent::entry(rt, entry, item, &mut self.area, &mut self.answer)
    }

    // Whether there was a next item, which was tried.
    fn try_next(&mut self, rt: &impl Print, input: &mut impl Read) -> Result<bool, Damaged> {
        let mut first = [0; HEADER];
        let n = read_full(input, &mut first);
        if n == 0 {
            return Ok(false);
        }
        let (number, length) = header(&first[..n]).ok_or(Damaged)?;
        let item = self.item.get_mut(..length).ok_or(Damaged)?;
        if read_full(input, item) < length {
            return Err(Damaged);
        }
        self.try_item(rt, number, length)?;
        Ok(true)
    }

    // Tries the items up to the input's end, or to one that is damaged.
    fn try_all(&mut self, rt: &impl Print, input: &mut impl Read) -> Result<(), Damaged> {
        for _ in 0..u32::MAX {
            if !self.try_next(rt, input)? {
                break;
            }
        }
        Ok(())
    }
}

// Reads until the buffer is full, the input ends or a read fails, and says how many bytes are in it then. The program trace has the same: the two have no crate of their own below them.
fn read_full(input: &mut impl Read, buffer: &mut [u8]) -> usize
    ensures { result ≤ length buffer.new }
{
    let mut done = 0;
    while done < buffer.len() {
        match input.read(&mut buffer[done..]) {
            Ok(0) | Err(_) => break,
            Ok(n) => done += n,
        }
    }
    done
}

// The number of an item's entry, and how many bytes follow.
fn header(bytes: &[u8]) -> Option<(u8, usize)> {
    let (number, rest) = bytes.split_first()?;
    let length = rest.as_array()?;
    Some((*number, u32::from_be_bytes(*length) as usize))
}

fn main(rt: HostRuntime) -> io::Result<()> {
    let mut room = Room {
        item: [0; MOST],
        area: [0; MOST],
        answer: [0; MOST],
    };
    if room.try_all(&rt, &mut rt.stdin()).is_err() {
        let _ = println!(rt; "damaged");
    }
    Ok(())
}
