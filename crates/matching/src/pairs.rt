// Pairs of rows that are still to be made equal.
ghost use Rattle.std.specs.Prelude.{◌+◌, ◌*◌, ◌<◌, ◌≤◌, length};
ghost use Rattle.words.specs.Word.{Valids};
ghost use Rattle.heap.specs.Heap.{Whole};
ghost use Rattle.matching.specs.Pairs.{Alike, Behind, Settled, Entered};

use heap::{SYMBOL, past};
use words::{arity, get, word};

// `due` rows from p on and as many from q on, pair by pair, and then those of the levels, the last first. A level is three numbers: two positions,
// and how many rows are due there.
#[derive(Clone, Copy)]
pub struct Pairs {
    pub p: usize,
    pub q: usize,
    pub due: usize,
    pub depth: usize,
}

// The pairs behind those that the same symbols make, word for word: they are equal whatever is bound, and nothing has to be followed, kept or paid for.
pub fn past_alike(heap: &[u32], x: Pairs) -> Pairs
    requires { Valids heap.now × (length heap.now < 65536) × Whole heap.now x.due x.p × Whole heap.now x.due x.q }
    ensures { Alike heap.now x result }
{
    let mut p = x.p;
    let mut q = x.q;
    let mut due = x.due;
    while 0 < due {
        let u = word(heap, p);
        if u < SYMBOL {
            return Pairs { p, q, due, ..x };
        }
        if u != word(heap, q) {
            return Pairs { p, q, due, ..x };
        }
        due = due - 1 + arity(u);
        p += 1;
        q += 1;
    }
    Pairs { p, q, due, ..x }
}

// The pairs behind the first.
pub fn behind(heap: &[u32], x: Pairs) -> Pairs
    requires { Valids heap.now × (length heap.now < 65536) × (0 < x.due) × Whole heap.now x.due x.p × Whole heap.now x.due x.q }
    ensures { Behind heap.now x result }
{
    if x.due == 1 {
        return Pairs { due: 0, ..x };
    }
    Pairs {
        p: past(heap, x.p),
        q: past(heap, x.q),
        due: x.due - 1,
        ..x
    }
}

// A level that is done gives way to the one before it.
pub fn settled(levels: &[u16], x: Pairs) -> Pairs
    requires { (x.depth < 16384) × (3 * x.depth ≤ length levels.now) }
    ensures { Settled levels.now x result }
{
    if 0 < x.due {
        return x;
    }
    if x.depth == 0 {
        return x;
    }
    let last = x.depth - 1;
    Pairs {
        p: get(levels, 3 * last),
        q: get(levels, 3 * last + 1),
        due: get(levels, 3 * last + 2),
        depth: last,
    }
}

// The k rows at a and b come before the pairs x. A level is kept only with rows due.
pub fn entered(levels: &mut [u16], x: Pairs, a: usize, b: usize, k: usize) -> Pairs
    requires { (x.depth < 16384) × (x.p < 65536) × (x.q < 65536) × (x.due < 65536) × (3 * x.depth + 3 ≤ length levels.old) }
    ensures { Entered levels.old x a b k levels.new result }
{
    let depth = x.depth;
    if x.due == 0 {
        return Pairs {
            p: a,
            q: b,
            due: k,
            ..x
        };
    }
    levels[3 * depth] = x.p as u16;
    levels[3 * depth + 1] = x.q as u16;
    levels[3 * depth + 2] = x.due as u16;
    Pairs {
        p: a,
        q: b,
        due: k,
        depth: depth + 1,
    }
}
