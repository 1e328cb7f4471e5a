// Two rows of the heap: what has to be done to make them equal.
ghost use Rattle.std.specs.Prelude.{◌≡◌};
ghost use Rattle.heap.specs.Heap.{Made, Whole};
ghost use Rattle.matching.specs.Meeting.{Met, apart};

use heap::{SYMBOL, follow, id};
use words::{arity, word};

// Nothing; so many arguments from two positions on; a variable, which is not bound, on the row at a position: another variable, of a lower
// number, or a symbol's. Or it can't be done.
#[derive(Clone, Copy)]
pub enum Meeting {
    Same,
    Inside(usize, usize, usize),
    Join(usize, usize),
    Hang(usize, usize),
    Clash,
}

// The words x and y, at a and b, are not the same.
fn apart(x: u32, y: u32, a: usize, b: usize) -> Meeting
    ensures { result ≡ apart x y a b }
{
    if x < SYMBOL {
        if y < SYMBOL {
            if y < x {
                return Meeting::Join(id(x), b);
            }
            return Meeting::Join(id(y), a);
        }
        return Meeting::Hang(id(x), b);
    }
    if y < SYMBOL {
        return Meeting::Hang(id(y), a);
    }
    Meeting::Clash
}

pub fn meet(heap: &[u32], cells: &[u16], p: usize, q: usize) -> Meeting
    requires { Made heap.now cells.now × Whole heap.now 1 p × Whole heap.now 1 q }
    ensures { Met heap.now cells.now p q result }
{
    let a = follow(heap, cells, p);
    let b = follow(heap, cells, q);
    if a == b {
        return Meeting::Same;
    }
    let x = word(heap, a);
    let y = word(heap, b);
    if x == y {
        let k = arity(x);
        if k == 0 {
            return Meeting::Same;
        }
        return Meeting::Inside(a + 1, b + 1, k);
    }
    apart(x, y, a, b)
}
