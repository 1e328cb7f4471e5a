// A walk visits the nodes of what rows stand for, in prefix order and through bindings.
ghost use Rattle.std.specs.Prelude.{◌≡◌, ℕ, ◌+◌, ◌*◌, ◌<◌, ◌≤◌, length, IfSome};
ghost use Rattle.heap.specs.Heap.{Made};
ghost use Rattle.heap.specs.Walking.{settled, entered, pushed, Ready, Visited, Lone};

use crate::{SYMBOL, follow};
use words::{arity, get, word};

// `due` rows from the position `at` on are to be visited, and then those of the levels, the last first. A level is two numbers: its position,
// and how many rows are due there.
#[derive(Clone, Copy)]
pub struct Walk {
    pub at: usize,
    pub due: usize,
    pub depth: usize,
}

// The most levels that a walk is given storage for. One is kept where a bound variable has rows behind it, so that a walk has more of them only
// through as many bindings, one inside the other.
pub const DEEPEST: usize = 256;

// A node, and the walk after it.
#[derive(Clone, Copy)]
pub struct Seen {
    pub word: u32,
    pub walk: Walk,
}

// A level that is done gives way to the one before it. Two tests: one condition of both would be computed at each node of a walk, without a branch.
pub fn settled(levels: &[u16], w: Walk) -> Walk
    requires { (w.depth < 32768) × (2 * w.depth ≤ length levels.now) }
    ensures { result ≡ settled levels.now w }
{
    if 0 < w.due {
        return w;
    }
    if w.depth == 0 {
        return w;
    }
    let last = w.depth - 1;
    Walk {
        at: get(levels, 2 * last),
        due: get(levels, 2 * last + 1),
        depth: last,
    }
}

// The k rows at p, and then those behind the walk's first row. A level is kept only with rows due.
fn within(levels: &mut [u16], w: Walk, p: usize, k: usize) -> Walk
    requires { (w.depth < 32768) × (0 < w.due) × (w.due < 65536) × (w.at + 1 < 65536) × (2 * w.depth + 2 ≤ length levels.old) }
    ensures walk { result ≡ entered w p k }
    ensures levels { levels.new ≡ pushed levels.old w }
{
    let depth = w.depth;
    if w.due == 1 {
        return Walk { at: p, due: k, ..w };
    }
    levels[2 * depth] = (w.at + 1) as u16;
    levels[2 * depth + 1] = (w.due - 1) as u16;
    Walk {
        at: p,
        due: k,
        depth: depth + 1,
    }
}

// The next node of a walk with rows due.
pub fn next(heap: &[u32], cells: &[u16], levels: &mut [u16], w: Walk) -> Seen
    requires made { Made heap.now cells.now × Ready heap.now levels.old w }
    requires due_nonzero { (0 < w.due) × (w.depth < 32768) × (2 * w.depth + 2 ≤ length levels.old) }
    ensures { Visited heap.now cells.now levels.old w result.word levels.new result.walk }
{
    let p = w.at;
    let due = w.due - 1;
    let u = word(heap, p);
    if SYMBOL <= u {
        let walk = settled(
            levels,
            Walk {
                at: p + 1,
                due: due + arity(u),
                ..w
            },
        );
        return Seen { word: u, walk };
    }
    let q = follow(heap, cells, p);
    let x = word(heap, q);
    let k = arity(x);
    if k == 0 {
        let walk = settled(
            levels,
            Walk {
                at: p + 1,
                due,
                ..w
            },
        );
        return Seen { word: x, walk };
    }
    let walk = within(levels, w, q + 1, k);
    Seen { word: x, walk }
}

// What the word at p stands for, where no level is needed for it: the word of a symbol, or of the variable that is not bound or the symbol without arguments
// that a variable stands for. None where a variable stands for more than one node.
pub fn lone(heap: &[u32], cells: &[u16], p: usize) -> Option<u32>
    requires { Made heap.now cells.now × (p < length heap.now) }
    ensures { IfSome result (Lone heap.now cells.now p) }
{
    let u = word(heap, p);
    if SYMBOL <= u {
        return Some(u);
    }
    let x = word(heap, follow(heap, cells, p));
    if 0 < arity(x) {
        return None;
    }
    Some(x)
}
