// How large what rows of the heap stand for is, and how much larger a step may make it.
#![tactic(auto)]

ghost use Rattle.std.specs.Prelude.{◌≡◌, [], ◌∷◌, ℕ, ◌<◌, ◌≤◌, length, IfSome};
ghost use Rattle.words.specs.Word.{Valid, node};
ghost use Rattle.heap.specs.Heap.{Made, Whole};
ghost use Rattle.bounds.specs.Places.{weigh, places, below};
ghost use Rattle.bounds.specs.Sizing.{Sized, Bound, Grown, Weighed};

use heap::SYMBOL;
use heap::walking::{DEEPEST, Walk, lone, next};
use words::{arity, get};

pub mod clauses; // what a clause's body adds to its head

// How many nodes, and how many of them are variables.
#[derive(Clone, Copy)]
pub struct Size {
    pub nodes: usize,
    pub variables: usize,
}

// What a trial has bound: each of its variables stands for so many nodes at most, and so many of them are variables, one of each at least. And where no variable was there twice, none is
// there more than `times` times now.
#[derive(Clone, Copy)]
pub struct Weight {
    pub nodes: usize,
    pub variables: usize,
    pub times: usize,
}

// As many nodes as are not counted, or not known.
pub const OVER: usize = 65535;

// Where nothing is bound: a variable stands for itself.
pub fn weightless() -> Weight
    ensures { result ≡ record { nodes = 1; variables = 1; times = 1 } }
{
    Weight {
        nodes: 1,
        variables: 1,
        times: 1,
    }
}

pub fn one_if_variable(u: u32) -> usize
    requires { Valid u }
    ensures { (result ≡ places (node u ∷ [])) × (result ≤ 1) }
{
    usize::from(u < SYMBOL)
}

// A variable that was there before has a number below the base.
pub fn one_if_old(u: u32, base: usize) -> usize
    requires { Valid u × (base < 65536) }
    ensures { (result ≡ weigh (below base) (node u ∷ [])) × (result ≤ places (node u ∷ [])) }
{
    usize::from(u < 0x100_0000 + base as u32)
}

pub fn larger(a: usize, b: usize) -> usize
    ensures { (a ≤ result) × (b ≤ result) × ((m : ℕ) → a ≤ m → b ≤ m → result ≤ m) }
{
    a.max(b)
}

// What the rows stand for; None where that passes the limit, or where there are too many levels to say.
pub fn size_of(
    heap: &[u32],
    cells: &[u16],
    levels: &mut [u16],
    at: usize,
    due: usize,
    limit: usize,
) -> Option<Size>
    requires made { Made heap.now cells.now × Whole heap.now due at }
    requires limit_bound { (limit ≤ 8192) × (514 ≤ length levels.old) }
    ensures { IfSome result (Sized heap.now cells.now at due limit) }
{
    let mut nodes = 0;
    let mut variables = 0;
    let mut w = Walk { at, due, depth: 0 };
    while 0 < w.due {
        if nodes == limit {
            return None;
        }
        if DEEPEST <= w.depth {
            return None;
        }
        let seen = next(heap, cells, levels, w);
        nodes += 1;
        variables += one_if_variable(seen.word);
        w = seen.walk;
    }
    Some(Size { nodes, variables })
}

// What a row stands for, where each of its words stands for one node; None where one does not, or where they pass the limit.
fn plain_size(heap: &[u32], cells: &[u16], p: usize, limit: usize) -> Option<Size>
    requires { Made heap.now cells.now × Whole heap.now 1 p × (limit ≤ 8192) }
    ensures { IfSome result (Sized heap.now cells.now p 1 limit) }
{
    let mut nodes = 0;
    let mut variables = 0;
    let mut due = 1;
    let mut at = p;
    while 0 < due {
        if nodes == limit {
            return None;
        }
        let u = lone(heap, cells, at)?;
        nodes += 1;
        variables += one_if_variable(u);
        due = due - 1 + arity(u);
        at += 1;
    }
    Some(Size { nodes, variables })
}

// Most rows say it by their own words, and need no walk.
fn row_size(heap: &[u32], cells: &[u16], levels: &mut [u16], p: usize, limit: usize) -> Option<Size>
    requires made { Made heap.now cells.now × Whole heap.now 1 p }
    requires limit_bound { (limit ≤ 8192) × (514 ≤ length levels.old) }
    ensures { IfSome result (Sized heap.now cells.now p 1 limit) }
{
    match plain_size(heap, cells, p, limit) {
        Some(size) => Some(size),
        None => size_of(heap, cells, levels, p, 1, limit),
    }
}

// The most that a variable of the trail stands for, and one node at least.
fn growth(
    heap: &[u32],
    cells: &[u16],
    levels: &mut [u16],
    trail: &[u16],
    count: usize,
    limit: usize,
) -> Option<Size>
    requires made { Made heap.now cells.now × Bound cells.now trail.now count }
    requires le_limit { (1 ≤ limit) × (limit ≤ 8192) × (514 ≤ length levels.old) × (count ≤ length trail.now) }
    ensures { IfSome result (Grown heap.now cells.now trail.now count limit) }
{
    let mut nodes = 1;
    let mut variables = 0;
    for &v in &trail[..count] {
        let p = get(cells, usize::from(v)) - 1;
        let size = row_size(heap, cells, levels, p, limit)?;
        nodes = nodes.max(size.nodes);
        variables = variables.max(size.variables);
    }
    Some(Size { nodes, variables })
}

// What a trial has bound: as the trial tells, or else by a walk over it, where that is not too long.
pub fn weight_of(
    heap: &[u32],
    cells: &[u16],
    levels: &mut [u16],
    trail: &[u16],
    count: usize,
    known: Option<Weight>,
) -> Option<Weight>
    requires made { Made heap.now cells.now × Bound cells.now trail.now count }
    requires in_bounds { (514 ≤ length levels.old) × (count ≤ length trail.now) × (count ≤ 8448) }
    ensures { (base : ℕ) → Weighed heap.now cells.now base trail.now count known → Weighed heap.now cells.now base trail.now count result }
{
    if known.is_some() {
        return known;
    }
    let most = growth(heap, cells, levels, trail, count, 4096)?;
    Some(Weight {
        nodes: most.nodes,
        variables: most.variables.max(1),
        times: 1 + count * most.variables,
    })
}
