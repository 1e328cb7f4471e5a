// A head and a formula of the goal: what binding variables of the head alone makes equal. Nothing is put on the trail then, and there is no occur check, since a row of the
// goal has none of these variables.
ghost use Rattle.std.specs.Prelude.{◌≡◌, List, ℕ, ◌%◌, ◌<◌, ◌≤◌, length, get_or};
ghost use Rattle.terms.specs.Subst.{Subst};
ghost use Rattle.words.specs.Word.{kind_of, Valids};
ghost use Rattle.heap.specs.Heap.{Made, Solved, Whole};
ghost use Rattle.matching.specs.Pairs.{Due, Behind};
ghost use Rattle.matching.specs.Unifying.{Unmixed, Low, Begun};
ghost use Rattle.matching.specs.Heads.{Passes, HeadMet};

use crate::pairs::{Pairs, behind, entered, settled};
use crate::unifying::{DEEP, Trial};
use heap::{SYMBOL, follow, id, past, row_of};
use words::{arity, word};

// A pair of the formula's row and the head's: these pairs are due in its place, and behind it; it can't be made equal; or it takes more than the head's variables.
#[derive(Clone, Copy)]
pub enum Way {
    On(Pairs),
    Unlike,
    Open,
}

// The pairs behind the first, whose right row is a variable.
fn behind_variable(heap: &[u32], x: Pairs) -> Pairs
    requires { Valids heap.now × (length heap.now < 65536) × (0 < x.due) × Whole heap.now x.due x.p × Whole heap.now x.due x.q × (kind_of (get_or heap.now x.q 0) ≡ 1) }
    ensures { Behind heap.now x result }
{
    if x.due == 1 {
        return Pairs { due: 0, ..x };
    }
    Pairs {
        p: past(heap, x.p),
        q: x.q + 1,
        due: x.due - 1,
        ..x
    }
}

// The right row is the variable v.
fn match_variable(heap: &[u32], cells: &mut [u16], t: Trial, x: Pairs, v: usize) -> Way
    requires made { Made heap.now cells.old × (t.count ≡ 0) × Unmixed heap.now cells.old t × Low heap.now t.base t.start }
    requires due_nonzero { (0 < x.due) × Whole heap.now x.due x.p × Whole heap.now x.due x.q × (kind_of (get_or heap.now x.q 0) ≡ 1) × (v ≡ get_or heap.now x.q 0 % 65536) }
    ensures { (stack : List ℕ) → Passes heap.now t.base cells.old stack x cells.new stack result }
{
    if v < t.base {
        return Way::Open;
    }
    if row_of(cells, v).is_some() {
        return Way::Open;
    }
    let r = follow(heap, cells, x.p);
    if t.start <= r {
        return Way::Open;
    }
    cells[v] = (r + 1) as u16;
    Way::On(behind_variable(heap, x))
}

// The right row begins with the symbol w, and the left one is a variable.
fn match_symbol(heap: &[u32], cells: &[u16], stack: &mut [u16], x: Pairs, w: u32) -> Way
    requires { Made heap.now cells.now × Due heap.now stack.old x × (0 < x.due) × (w ≡ get_or heap.now x.q 0) × (33554432 ≤ w) × (387 ≤ length stack.old) }
    ensures { (base : ℕ) → Passes heap.now base cells.now stack.old x cells.now stack.new result }
{
    let r = follow(heap, cells, x.p);
    let u = word(heap, r);
    if u < SYMBOL {
        return Way::Open;
    }
    if u != w {
        return Way::Unlike;
    }
    let k = arity(u);
    if k == 0 {
        return Way::On(behind(heap, x));
    }
    if DEEP <= x.depth {
        return Way::Open;
    }
    let rest = behind(heap, x);
    Way::On(entered(stack, rest, r + 1, x.q + 1, k))
}

fn match_first(heap: &[u32], cells: &mut [u16], stack: &mut [u16], t: Trial, x: Pairs) -> Way
    requires made { Made heap.now cells.old × (t.count ≡ 0) × Unmixed heap.now cells.old t × Low heap.now t.base t.start }
    requires due { Due heap.now stack.old x × (0 < x.due) × (387 ≤ length stack.old) }
    ensures { Passes heap.now t.base cells.old stack.old x cells.new stack.new result }
{
    let w = word(heap, x.q);
    if w < SYMBOL {
        return match_variable(heap, cells, t, x, id(w));
    }
    let u = word(heap, x.p);
    if u == w {
        return Way::On(Pairs {
            p: x.p + 1,
            q: x.q + 1,
            due: x.due - 1 + arity(u),
            ..x
        });
    }
    if u < SYMBOL {
        return match_symbol(heap, cells, stack, x, w);
    }
    Way::Unlike
}

// A head has fewer words, so that this many pairs are enough.
const PAIRS: usize = 256;

// The formula's row at p and the head's at q: the pairs that are left. None where the two can't be made equal.
pub fn match_head(
    heap: &[u32],
    cells: &mut [u16],
    stack: &mut [u16],
    t: Trial,
    p: usize,
    q: usize,
) -> Option<Pairs>
    requires { Made heap.now cells.old × ((θ : Subst) × Solved heap.now cells.old θ) × Whole heap.now 1 p × Whole heap.now 1 q × Begun heap.now cells.old t × (387 ≤ length stack.old) }
    ensures { HeadMet heap.now t.base cells.old p q cells.new stack.new result }
{
    let mut x = Pairs {
        p,
        q,
        due: 1,
        depth: 0,
    };
    for _ in 0..PAIRS {
        if x.due == 0 {
            return Some(x);
        }
        match match_first(heap, cells, stack, t, x) {
            Way::On(y) => x = settled(stack, y),
            Way::Unlike => return None,
            Way::Open => return Some(x),
        }
    }
    Some(x)
}
