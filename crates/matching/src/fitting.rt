// A head made equal to a formula of the goal: by the head's own variables, and where that is not enough by all.
ghost use Rattle.std.specs.Prelude.{◌≡◌, ◌+◌, ◌<◌, ◌≤◌, length};
ghost use Rattle.terms.specs.Subst.{Subst};
ghost use Rattle.heap.specs.Heap.{Made, Solved, Whole};
ghost use Rattle.matching.specs.Unifying.{Begun};
ghost use Rattle.matching.specs.Fitting.{Hangs, HangsLast, Fitting};

use crate::binding::bind;
use crate::heads::match_head;
use crate::occurring::{is_away, weight_apart};
use crate::pairs::Pairs;
use crate::unifying::{Trial, Tried, unify};
use bounds::{Weight, weightless};
use heap::{SYMBOL, follow, id};
use words::word;

// The goal's variable v on the row at q: what it weighs now, where that is known. None where it is not hung there, since it is in what the row stands for, or that is not known.
fn hang_row(
    heap: &[u32],
    cells: &mut [u16],
    trail: &mut [u16],
    levels: &mut [u16],
    t: Trial,
    v: usize,
    q: usize,
) -> Option<Option<Weight>>
    requires { Made heap.now cells.old × ((θ : Subst) × Solved heap.now cells.old θ) × Whole heap.now 1 q × (length cells.old ≤ 8256) × (v < length cells.old) × (t.count < length trail.old) × (t.fuel ≤ 8448) × (514 ≤ length levels.old) × (t.base < 65536) }
    ensures { Hangs heap.now cells.old trail.old t v q cells.new trail.new result }
{
    if t.base <= v {
        return None;
    }
    let weight = weight_apart(heap, cells, t.base, v, q);
    if is_away(heap, cells, levels, v, q, t.fuel, weight) {
        bind(cells, trail, t.base, t.count, v, q);
        return Some(weight);
    }
    None
}

// Where the pairs are one, a variable of the goal and a term of the head, that is its value now: so a rule gives a value back. None where they are not, or it is not hung on the term.
fn hang_last(
    heap: &[u32],
    cells: &mut [u16],
    trail: &mut [u16],
    levels: &mut [u16],
    t: Trial,
    x: Pairs,
) -> Option<Option<Weight>>
    requires made { Made heap.now cells.old × ((θ : Subst) × Solved heap.now cells.old θ) × (length cells.old ≤ 8256) × (0 < x.due) × Whole heap.now x.due x.p × Whole heap.now x.due x.q }
    requires count_value { (t.count ≡ 0) × (t.fuel ≤ 8448) × (514 ≤ length levels.old) × (t.count + t.fuel ≤ length trail.old) × (t.base < 65536) }
    ensures { HangsLast heap.now cells.old trail.old t x cells.new trail.new result }
{
    if x.due != 1 {
        return None;
    }
    if x.depth != 0 {
        return None;
    }
    if t.fuel == 0 {
        return None;
    }
    if word(heap, x.q) < SYMBOL {
        return None;
    }
    let y = word(heap, follow(heap, cells, x.p));
    if SYMBOL <= y {
        return None;
    }
    hang_row(heap, cells, trail, levels, t, id(y), x.q)
}

// From the first pair on, by all variables.
fn fit_all(
    heap: &[u32],
    cells: &mut [u16],
    trail: &mut [u16],
    levels: &mut [u16],
    stack: &mut [u16],
    t: Trial,
    p: usize,
    q: usize,
) -> Tried<Option<Weight>>
    requires made { Made heap.now cells.old × ((θ : Subst) × Solved heap.now cells.old θ) × (length cells.old ≤ 8256) × Whole heap.now 1 p × Whole heap.now 1 q × Begun heap.now cells.old t }
    requires fuel_bound { (t.fuel ≤ 8448) × (514 ≤ length levels.old) × (t.count + t.fuel ≤ length trail.old) × (387 ≤ length stack.old) }
    ensures { Fitting heap.now cells.old trail.old t p q cells.new trail.new result }
{
    match unify(heap, cells, trail, levels, stack, t, p, q) {
        Tried::Fits(count, _) => Tried::Fits(count, None),
        Tried::Clash(count) => Tried::Clash(count),
        Tried::Tired(count) => Tried::Tired(count),
    }
}

// The formula's row at p and the head's at q are made equal, as by `unify`: what each goal variable that is bound weighs at most, where that is known.
pub fn fit(
    heap: &[u32],
    cells: &mut [u16],
    trail: &mut [u16],
    levels: &mut [u16],
    stack: &mut [u16],
    t: Trial,
    p: usize,
    q: usize,
) -> Tried<Option<Weight>>
    requires made { Made heap.now cells.old × ((θ : Subst) × Solved heap.now cells.old θ) × (length cells.old ≤ 8256) × Whole heap.now 1 p × Whole heap.now 1 q × Begun heap.now cells.old t }
    requires fuel_bound { (t.fuel ≤ 8448) × (514 ≤ length levels.old) × (t.count + t.fuel ≤ length trail.old) × (387 ≤ length stack.old) × (t.base < 65536) }
    ensures { Fitting heap.now cells.old trail.old t p q cells.new trail.new result }
{
    let Some(left) = match_head(heap, cells, stack, t, p, q) else {
        return Tried::Clash(t.count);
    };
    if left.due == 0 {
        return Tried::Fits(t.count, Some(weightless()));
    }
    match hang_last(heap, cells, trail, levels, t, left) {
        Some(weight) => Tried::Fits(t.count + 1, weight),
        None => fit_all(heap, cells, trail, levels, stack, t, p, q),
    }
}
