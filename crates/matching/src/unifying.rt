// Two rows of the heap made equal.
ghost use Rattle.std.specs.Prelude.{◌+◌, ◌<◌, ◌≤◌, length};
ghost use Rattle.terms.specs.Subst.{Subst};
ghost use Rattle.heap.specs.Heap.{Made, Solved, Whole};
ghost use Rattle.matching.specs.Occurring.{Looked};
ghost use Rattle.matching.specs.Unifying.{Unmixed, Begun, Hung, Stepped, Unified};

use crate::binding::bind;
use crate::meeting::{Meeting, meet};
use crate::occurring::{Look, occurs};
use crate::pairs::{Pairs, behind, entered, past_alike, settled};

// How a trial stands: the number that the clause's variables start from, where the clause starts on the heap, how many goal variables are bound by it, and
// how many nodes it may still visit.
#[derive(Clone, Copy)]
pub struct Trial {
    pub base: usize,
    pub start: usize,
    pub count: usize,
    pub fuel: usize,
}

// One pair: it is equal now, after so many bindings and with so many nodes left; its arguments are due; it can't be made equal; nothing is known.
#[derive(Clone, Copy)]
pub enum Step {
    Done(usize, usize),
    Inside(usize, usize, usize),
    Clash,
    Tired,
}

// Whether v is in what the row at r stands for. A row before the clause has none of the clause's variables as long as no goal variable is bound: then it is not
// gone through.
fn sought(heap: &[u32], cells: &[u16], levels: &mut [u16], t: Trial, v: usize, r: usize) -> Look
    requires made { Made heap.now cells.now × Whole heap.now 1 r × (v < 65536) × Unmixed heap.now cells.now t }
    requires fuel_bound { (t.fuel ≤ 8448) × (514 ≤ length levels.old) }
    ensures { Looked heap.now cells.now v r t.fuel result }
{
    if t.count == 0 && t.base <= v && r < t.start {
        return Look::Away(t.fuel);
    }
    occurs(heap, cells, levels, v, r, t.fuel)
}

// The variable v on the symbol's row at r, if it is not in what that stands for.
fn hang(
    heap: &[u32],
    cells: &mut [u16],
    trail: &mut [u16],
    levels: &mut [u16],
    t: Trial,
    v: usize,
    r: usize,
) -> Step
    requires made { Made heap.now cells.old × ((θ : Subst) × Solved heap.now cells.old θ) × (length cells.old ≤ 8256) × Unmixed heap.now cells.old t }
    requires fuel_bound { (t.fuel ≤ 8448) × (514 ≤ length levels.old) × (t.count < length trail.old) × (v < length cells.old) × (r < length heap.now) × Whole heap.now 1 r }
    ensures { Hung heap.now cells.old trail.old t v r cells.new trail.new result }
{
    match sought(heap, cells, levels, t, v, r) {
        Look::Away(left) => {
            let count = bind(cells, trail, t.base, t.count, v, r);
            Step::Done(count, left)
        }
        Look::There => Step::Clash,
        Look::Tired => Step::Tired,
    }
}

// The rows at p and q.
fn make(
    heap: &[u32],
    cells: &mut [u16],
    trail: &mut [u16],
    levels: &mut [u16],
    t: Trial,
    p: usize,
    q: usize,
) -> Step
    requires made { Made heap.now cells.old × ((θ : Subst) × Solved heap.now cells.old θ) × (length cells.old ≤ 8256) × Unmixed heap.now cells.old t }
    requires fuel_bound { (t.fuel ≤ 8448) × (514 ≤ length levels.old) × (t.count < length trail.old) × Whole heap.now 1 p × Whole heap.now 1 q }
    ensures { Stepped heap.now cells.old trail.old t p q cells.new trail.new result }
{
    match meet(heap, cells, p, q) {
        Meeting::Same => Step::Done(t.count, t.fuel),
        Meeting::Inside(a, b, k) => Step::Inside(a, b, k),
        Meeting::Join(v, r) => {
            let count = bind(cells, trail, t.base, t.count, v, r);
            Step::Done(count, t.fuel)
        }
        Meeting::Hang(v, r) => hang(heap, cells, trail, levels, t, v, r),
        Meeting::Clash => Step::Clash,
    }
}

// The rows are equal, after so many bindings of goal variables, and this is known besides; they can't be made equal; or the trial gave up and
// nothing is known. However it ends, the trail has so many goal variables.
#[derive(Clone, Copy)]
pub enum Tried<T> {
    Fits(usize, T),
    Clash(usize),
    Tired(usize),
}

// The most levels of pairs.
pub const DEEP: usize = 128;

// The rows at p and q are made equal: how many nodes may still be visited then.
pub fn unify(
    heap: &[u32],
    cells: &mut [u16],
    trail: &mut [u16],
    levels: &mut [u16],
    stack: &mut [u16],
    t: Trial,
    p: usize,
    q: usize,
) -> Tried<usize>
    requires made { Made heap.now cells.old × ((θ : Subst) × Solved heap.now cells.old θ) × (length cells.old ≤ 8256) × Whole heap.now 1 p × Whole heap.now 1 q × Begun heap.now cells.old t }
    requires fuel_bound { (t.fuel ≤ 8448) × (514 ≤ length levels.old) × (t.count + t.fuel ≤ length trail.old) × (387 ≤ length stack.old) }
    ensures { Unified heap.now cells.old trail.old t p q cells.new trail.new result }
{
    let mut count = t.count;
    let mut fuel = t.fuel;
    let first = Pairs {
        p,
        q,
        due: 1,
        depth: 0,
    };
    let mut x = past_alike(heap, first);
    while 0 < x.due {
        let rest = behind(heap, x);
        let spent = 1 + (rest.p - x.p) + (rest.q - x.q);
        if fuel < spent {
            return Tried::Tired(count);
        }
        if DEEP <= x.depth {
            return Tried::Tired(count);
        }
        fuel -= spent;
        match make(
            heap,
            cells,
            trail,
            levels,
            Trial { count, fuel, ..t },
            x.p,
            x.q,
        ) {
            Step::Done(now, left) => {
                count = now;
                fuel = left;
                x = settled(stack, rest);
            }
            Step::Inside(a, b, k) => x = entered(stack, rest, a, b, k),
            Step::Clash => return Tried::Clash(count),
            Step::Tired => return Tried::Tired(count),
        }
    }
    Tried::Fits(count, fuel)
}
