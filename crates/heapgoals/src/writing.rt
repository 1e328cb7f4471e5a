// What is held on the heap: its first formula told apart from a saved one, or written out; goal and answer written out.
ghost use Rattle.std.specs.Prelude.{◌≡◌, true, IfSome, List, ◌∷◌, ℕ, ◌+◌, ◌≤◌, length, take};
ghost use Rattle.terms.specs.Node.{Expr};
ghost use Rattle.terms.specs.Subst.{Subst};
ghost use Rattle.search.specs.Next.{Goal};
ghost use Rattle.words.specs.Word.{Valids, nodes};
ghost use Rattle.words.specs.Held.{RowIn};
ghost use Rattle.numbering.specs.Naming.{table, back, spare, Table};
ghost use Rattle.heap.specs.Heap.{Made, Whole, Solved};
ghost use Rattle.heap.specs.Walking.{Levels, behind};
ghost use Rattle.heapgoals.specs.Holding.{used, Holds};
ghost use Rattle.heapgoals.specs.HoldLaws.{Fore};
ghost use Rattle.heapgoals.specs.Showing.{Laid, visited, goal_part, Placed, Lead};

use crate::Standing;
use crate::telling::differs;
use heap::walking::Walk;
use heap::writing::{Pen, Run, symbols, write};
use words::rows::CELLS;
use words::{OUT, get};

// Whether the goal's first formula is certainly not the saved one.
pub fn is_other(
    words: &[u32],
    cells: &[u16],
    levels: &mut [u16],
    s: Standing,
    saved: &[u32],
) -> bool
    requires holds { (f : Expr) × (g : Goal) × (a : Goal) × Holds words.now cells.now levels.old s (f ∷ g) a }
    requires valids { Valids saved.now }
    ensures other { result ≡ true → (f : Expr) (g a : Goal) → Holds words.now cells.now levels.old s (f ∷ g) a → f ≡ nodes saved.now → ⊥ }
    ensures held { (g a : Goal) → Holds words.now cells.now levels.old s g a → Holds words.now cells.now levels.new s g a }
{
    if saved.len() < s.least {
        return true;
    }
    let top = s.top;
    differs(&words[0..top], cells, &mut levels[514..1028], s.at, saved)
}

// What the rows of a walk without levels stand for, behind what is written; the goal's levels stay.
fn put(
    heap: &[u32],
    cells: &[u16],
    levels: &mut [u16],
    rows: &mut [u16; CELLS],
    out: &mut [u32; OUT],
    pen: Pen,
    w: Walk,
    limit: usize,
) -> Pen
    requires made { Made heap.now cells.now × Whole heap.now w.due w.at × (w.depth ≡ 0) }
    requires by_index { (seen : List ℕ) × Table seen (table rows.old) (back rows.old) pen.count }
    requires cells_len { (length cells.now ≡ 8256) × (length levels.old ≡ 1028) }
    requires count_le_at { (pen.count ≤ pen.at) × (pen.at ≤ limit) × (limit ≤ pen.at + 4096) × (limit ≤ 8192) }
    ensures laid { Laid heap.now cells.now rows.old out.old pen (visited heap.now w.due w.at) limit rows.new out.new result }
    ensures fore { Fore levels.old levels.new }
    ensures spare { spare rows.new ≡ spare rows.old }
{
    write(
        heap,
        cells,
        &mut levels[514..1028],
        rows,
        out,
        pen,
        w,
        limit,
    )
}

// What the rows of the levels stand for, behind what is written.
fn write_levels(
    heap: &[u32],
    cells: &[u16],
    levels: &mut [u16],
    rows: &mut [u16; CELLS],
    out: &mut [u32; OUT],
    first: Pen,
    depth: usize,
) -> Pen
    requires made { Made heap.now cells.now × ((θ : Subst) × Solved heap.now cells.now θ) × Levels heap.now levels.old depth × (depth ≤ 256) }
    requires by_index { (seen : List ℕ) × Table seen (table rows.old) (back rows.old) first.count }
    requires cells_len { (length cells.now ≡ 8256) × (length levels.old ≡ 1028) }
    requires count_le_at { (first.count ≤ first.at) × (first.at ≤ 4096) }
    ensures laid { Laid heap.now cells.now rows.old out.old first (λ θ. behind heap.now levels.old θ depth) 4096 rows.new out.new result }
    ensures fore { Fore levels.old levels.new }
    ensures spare { spare rows.new ≡ spare rows.old }
{
    let mut pen = first;
    for n in (0..depth).rev() {
        let w = Walk {
            at: get(levels, 2 * n),
            due: get(levels, 2 * n + 1),
            depth: 0,
        };
        pen = put(heap, cells, levels, rows, out, pen, w, 4096);
        if 4096 < pen.at {
            return pen;
        }
    }
    pen
}

fn write_goal(
    heap: &[u32],
    cells: &[u16],
    levels: &mut [u16],
    rows: &mut [u16; CELLS],
    out: &mut [u32; OUT],
    s: Standing,
) -> Pen
    requires placed { Placed heap.now cells.now levels.old s }
    ensures laid { Laid heap.now cells.now rows.old out.old (record { at = 0; count = 0 }) (goal_part heap.now levels.old s) 4096 rows.new out.new result }
    ensures fore { Fore levels.old levels.new }
    ensures spare { spare rows.new ≡ spare rows.old }
{
    let from = Pen { at: 0, count: 0 };
    let w = Walk {
        at: s.at,
        due: s.due,
        depth: 0,
    };
    let first = put(heap, cells, levels, rows, out, from, w, 4096);
    if 4096 < first.at {
        return first;
    }
    write_levels(heap, cells, levels, rows, out, first, s.depth)
}

// How many words of the goal are written, and of the answer behind it.
#[derive(Clone, Copy)]
pub struct Row {
    pub words: usize,
    pub answer: usize,
}

fn write_rows(
    heap: &[u32],
    cells: &[u16],
    levels: &mut [u16],
    rows: &mut [u16; CELLS],
    out: &mut [u32; OUT],
    s: Standing,
) -> Option<Row>
    requires placed { Placed heap.now cells.now levels.old s }
    ensures row { IfSome result (λ r. (words : List ℕ) (g a : Goal) → Holds words cells.now levels.old s g a → heap.now ≡ used words s → RowIn (take (r.words + r.answer) out.new) r.words s.formulas g a × (r.words + r.answer ≤ 8192)) }
    ensures fore { Fore levels.old levels.new }
    ensures spare { spare rows.new ≡ spare rows.old }
{
    let goal = write_goal(heap, cells, levels, rows, out, s);
    if 4096 < goal.at {
        return None;
    }
    let end = goal.at + 4096;
    let w = Walk {
        at: s.answer,
        due: s.answers,
        depth: 0,
    };
    let all = put(heap, cells, levels, rows, out, goal, w, end);
    if end < all.at {
        return None;
    }
    Some(Row {
        words: goal.at,
        answer: all.at - goal.at,
    })
}

// Goal and answer, numbered as one; none where the writing gave up.
pub fn write_out(
    words: &[u32],
    cells: &[u16],
    levels: &mut [u16],
    rows: &mut [u16; CELLS],
    out: &mut [u32; OUT],
    s: Standing,
) -> Option<Row>
    requires holds { (g : Goal) × (a : Goal) × Holds words.now cells.now levels.old s g a }
    ensures row { IfSome result (λ r. (g a : Goal) → Holds words.now cells.now levels.old s g a → RowIn (take (r.words + r.answer) out.new) r.words s.formulas g a × (r.words + r.answer ≤ 8192)) }
    ensures held { (g a : Goal) → Holds words.now cells.now levels.old s g a → Holds words.now cells.now levels.new s g a }
    ensures spare { spare rows.new ≡ spare rows.old }
{
    let top = s.top;
    write_rows(&words[0..top], cells, levels, rows, out, s)
}

// The goal's first formula, numbered: how many words it has, or none where the writing gave up. Where it stands there with symbols alone, there is
// nothing to follow or to number.
pub fn write_first(
    words: &[u32],
    cells: &[u16],
    levels: &mut [u16],
    rows: &mut [u16; CELLS],
    out: &mut [u32; OUT],
    s: Standing,
) -> Option<usize>
    requires holds { (f : Expr) × (g : Goal) × (a : Goal) × Holds words.now cells.now levels.old s (f ∷ g) a }
    ensures first { IfSome result (λ n. (n ≤ 4096) × ((f : Expr) (g a : Goal) → Holds words.now cells.now levels.old s (f ∷ g) a → Lead f out.new n)) }
    ensures held { (g a : Goal) → Holds words.now cells.now levels.old s g a → Holds words.now cells.now levels.new s g a }
    ensures spare { spare rows.new ≡ spare rows.old }
{
    let top = s.top;
    let start = Run {
        at: s.at,
        due: 1,
        pen: 0,
    };
    let run = symbols(&words[0..top], out, start, 4096);
    if run.due == 0 {
        return Some(run.pen);
    }
    let from = Pen { at: 0, count: 0 };
    let w = Walk {
        at: s.at,
        due: 1,
        depth: 0,
    };
    let pen = put(&words[0..top], cells, levels, rows, out, from, w, 4096);
    if 4096 < pen.at {
        return None;
    }
    Some(pen.at)
}
