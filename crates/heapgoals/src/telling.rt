// Whether what a row stands for is certainly another formula than a saved one.
ghost use Rattle.std.specs.Prelude.{◌≡◌, true, ◌≤◌, length};
ghost use Rattle.words.specs.Word.{Valid, Valids};
ghost use Rattle.heap.specs.Heap.{Made, Whole};
ghost use Rattle.heapgoals.specs.Telling.{Parted, Other};

use heap::walking::{DEEPEST, Walk, next};
use heap::{SYMBOL, follow};
use words::{arity, word};

// Two words that numbering leaves different. Most pairs that are looked at are of one word, which the first test tells.
fn parted(u: u32, v: u32) -> bool
    requires { Valid u × Valid v }
    ensures { result ≡ true → Parted u v }
{
    if u == v {
        return false;
    }
    if u < SYMBOL {
        return SYMBOL <= v;
    }
    true
}

// Down the first arguments, where no level is kept: so most are told apart without a walk.
fn leads_otherwise(heap: &[u32], cells: &[u16], at: usize, saved: &[u32]) -> bool
    requires made { Made heap.now cells.now × Whole heap.now 1 at }
    requires valids { Valids saved.now }
    ensures { result ≡ true → Other heap.now cells.now at saved.now (length saved.now) }
{
    let mut p = at;
    for v in saved {
        let q = follow(heap, cells, p);
        let u = word(heap, q);
        if parted(u, *v) {
            return true;
        }
        if arity(u) == 0 {
            return false;
        }
        p = q + 1;
    }
    true
}

// Node by node.
fn differs_within(heap: &[u32], cells: &[u16], levels: &mut [u16], at: usize, saved: &[u32]) -> bool
    requires made { Made heap.now cells.now × Whole heap.now 1 at × (514 ≤ length levels.old) }
    requires valids { Valids saved.now }
    ensures { result ≡ true → Other heap.now cells.now at saved.now (length saved.now) }
{
    let mut w = Walk {
        at,
        due: 1,
        depth: 0,
    };
    for v in saved {
        if w.due == 0 {
            return true;
        }
        if DEEPEST <= w.depth {
            return false;
        }
        let seen = next(heap, cells, levels, w);
        if parted(seen.word, *v) {
            return true;
        }
        w = seen.walk;
    }
    0 < w.due
}

// The saved formula is numbered by first appearance. Where the two differ in variables alone, nothing is known.
pub fn differs(heap: &[u32], cells: &[u16], levels: &mut [u16], at: usize, saved: &[u32]) -> bool
    requires made { Made heap.now cells.now × Whole heap.now 1 at × (514 ≤ length levels.old) }
    requires valids { Valids saved.now }
    ensures { result ≡ true → Other heap.now cells.now at saved.now (length saved.now) }
{
    leads_otherwise(heap, cells, at, saved) || differs_within(heap, cells, levels, at, saved)
}
