// The occur check: whether a variable is in what a row stands for.
ghost use Rattle.std.specs.Prelude.{◌≡◌, true, [], ◌<◌, ◌≤◌, length, IfSome, OnSome};
ghost use Rattle.terms.specs.Subst.{Subst};
ghost use Rattle.heap.specs.Heap.{Made, Solved, Whole};
ghost use Rattle.heap.specs.Walking.{flat};
ghost use Rattle.matching.specs.Occurring.{Apart, Looked, Seeking};
ghost use Rattle.matching.specs.Fitting.{Heavy};

use bounds::{Weight, one_if_old, one_if_variable};
use heap::walking::{DEEPEST, Walk, lone, next};
use words::arity;

// It is not, and so many nodes may still be visited; it is; or there were too many nodes or levels to say.
#[derive(Clone, Copy)]
pub enum Look {
    Away(usize),
    There,
    Tired,
}

// What is left of a row: `due` rows from the position `at` on, and so many nodes that may still be visited.
#[derive(Clone, Copy)]
struct Rest {
    at: usize,
    due: usize,
    left: usize,
}

// What is left behind those of the row's own words that stand for one node each, and not for v. Where nothing is, no walk is needed.
fn skim(heap: &[u32], cells: &[u16], v: usize, p: usize, fuel: usize) -> Rest
    requires { Made heap.now cells.now × Whole heap.now 1 p × (v < 65536) }
    ensures { Seeking heap.now cells.now v p fuel [] result.left (flat result.at result.due) }
{
    let sought = 0x100_0000 + v as u32;
    let mut at = p;
    let mut due = 1;
    let mut left = fuel;
    while 0 < due {
        if left == 0 {
            return Rest { at, due, left };
        }
        let Some(u) = lone(heap, cells, at) else {
            return Rest { at, due, left };
        };
        if u == sought {
            return Rest { at, due, left };
        }
        at += 1;
        due = due - 1 + arity(u);
        left -= 1;
    }
    Rest { at, due, left }
}

// What a walk over the rest says.
fn seek(
    heap: &[u32],
    cells: &[u16],
    levels: &mut [u16],
    v: usize,
    p: usize,
    fuel: usize,
    rest: Rest,
) -> Look
    requires made { Made heap.now cells.now × Seeking heap.now cells.now v p fuel [] rest.left (flat rest.at rest.due) × (v < 65536) }
    requires fuel_bound { (fuel ≤ 8448) × (514 ≤ length levels.old) }
    ensures { Looked heap.now cells.now v p fuel result }
{
    let sought = 0x100_0000 + v as u32;
    let mut left = rest.left;
    let mut w = Walk {
        at: rest.at,
        due: rest.due,
        depth: 0,
    };
    while 0 < w.due {
        if left == 0 {
            return Look::Tired;
        }
        if DEEPEST <= w.depth {
            return Look::Tired;
        }
        let seen = next(heap, cells, levels, w);
        if seen.word == sought {
            return Look::There;
        }
        left -= 1;
        w = seen.walk;
    }
    Look::Away(left)
}

pub fn occurs(
    heap: &[u32],
    cells: &[u16],
    levels: &mut [u16],
    v: usize,
    p: usize,
    fuel: usize,
) -> Look
    requires made { Made heap.now cells.now × Whole heap.now 1 p × (v < 65536) }
    requires fuel_bound { (fuel ≤ 8448) × (514 ≤ length levels.old) }
    ensures { Looked heap.now cells.now v p fuel result }
{
    let rest = skim(heap, cells, v, p, fuel);
    if rest.due == 0 {
        return Look::Away(rest.left);
    }
    seek(heap, cells, levels, v, p, fuel, rest)
}

// What a variable weighs that is bound to a row, where v is not in what the row stands for and each of its words stands for one node: so the row is gone through once for both. None
// otherwise. A variable of the goal is below the base: it is where v was, and where it is itself.
pub fn weight_apart(heap: &[u32], cells: &[u16], base: usize, v: usize, p: usize) -> Option<Weight>
    requires { Made heap.now cells.now × ((θ : Subst) × Solved heap.now cells.now θ) × Whole heap.now 1 p × (v < 65536) × (base < 65536) }
    ensures heavy { IfSome result (Heavy heap.now cells.now base p) }
    ensures apart { OnSome result (Apart heap.now cells.now v p) }
{
    let sought = 0x100_0000 + v as u32;
    let mut nodes = 0;
    let mut variables = 0;
    let mut old = 0;
    let mut due = 1;
    let mut at = p;
    while 0 < due {
        if nodes == 4096 {
            return None;
        }
        let u = lone(heap, cells, at)?;
        if sought == u {
            return None;
        }
        nodes += 1;
        variables += one_if_variable(u);
        old += one_if_old(u, base);
        due = due - 1 + arity(u);
        at += 1;
    }
    Some(Weight {
        nodes,
        variables: variables.max(1),
        times: (variables - old).max(1 + old),
    })
}

// Whether it is known not to be, by what was weighed or by a walk.
pub fn is_away(
    heap: &[u32],
    cells: &[u16],
    levels: &mut [u16],
    v: usize,
    p: usize,
    fuel: usize,
    weight: Option<Weight>,
) -> bool
    requires made { Made heap.now cells.now × Whole heap.now 1 p × (v < 65536) × OnSome weight (Apart heap.now cells.now v p) }
    requires fuel_bound { (fuel ≤ 8448) × (514 ≤ length levels.old) }
    ensures { result ≡ true → Apart heap.now cells.now v p }
{
    weight.is_some() || matches!(occurs(heap, cells, levels, v, p, fuel), Look::Away(_))
}
