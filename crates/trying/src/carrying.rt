// The next goal and answer, written off the heap.
ghost use Rattle.std.specs.Prelude.{◌≡◌, length};
ghost use Rattle.terms.specs.Subst.{Subst};
ghost use Rattle.numbering.specs.Naming.{spare};
ghost use Rattle.heap.specs.Heap.{Made, Solved};
ghost use Rattle.trying.specs.Carrying.{Placed, goal_part, Put, Carried};

use heap::walking::Walk;
use heap::writing::{OVER, Pen, TIRED, write};
use words::OUT;
use words::rows::CELLS;

// Where the clause's body, the rest of the goal and the answer stand on the heap, and how many formulas each has.
#[derive(Clone, Copy)]
pub struct Parts {
    pub body: usize,
    pub bodies: usize,
    pub rest: usize,
    pub others: usize,
    pub answer: usize,
    pub answers: usize,
}

// Nothing is known; the goal is too long; the answer is; or so many words of the goal are written, and so many of the answer.
#[derive(Clone, Copy)]
pub enum Next {
    Tired,
    Full,
    Over,
    Done(usize, usize),
}

fn rows_at(at: usize, due: usize) -> Walk
    ensures { result ≡ record { at = at; due = due; depth = 0 } }
{
    Walk { at, due, depth: 0 }
}

// The goal: the body and the rest, at most 4,096 words.
fn write_goal(
    heap: &[u32],
    cells: &[u16],
    levels: &mut [u16],
    rows: &mut [u16; CELLS],
    out: &mut [u32; OUT],
    p: Parts,
) -> Pen
    requires made { Made heap.now cells.now × ((θ : Subst) × Solved heap.now cells.now θ) × Placed heap.now p }
    requires cells_len { (length cells.now ≡ 8256) × (length levels.old ≡ 514) }
    ensures put { Put heap.now cells.now rows.old out.old (record { at = 0; count = 0 }) (goal_part heap.now p) 4096 rows.new out.new result }
    ensures spare { spare rows.new ≡ spare rows.old }
{
    let from = Pen { at: 0, count: 0 };
    let first = rows_at(p.body, p.bodies);
    let body = write(heap, cells, levels, rows, out, from, first, 4096);
    if 4096 < body.at {
        return body;
    }
    let second = rows_at(p.rest, p.others);
    write(heap, cells, levels, rows, out, body, second, 4096)
}

// The goal, and behind it the answer, at most 4,096 words too.
pub fn write_next(
    heap: &[u32],
    cells: &[u16],
    rows: &mut [u16; CELLS],
    out: &mut [u32; OUT],
    p: Parts,
) -> Next
    requires made { Made heap.now cells.now × ((θ : Subst) × Solved heap.now cells.now θ) × Placed heap.now p }
    requires cells_len { length cells.now ≡ 8256 }
    ensures carried { (θ : Subst) → Solved heap.now cells.now θ → Carried heap.now p θ out.new result }
    ensures spare { spare rows.new ≡ spare rows.old }
{
    let mut levels = [0u16; 514];
    let goal = write_goal(heap, cells, &mut levels, rows, out, p);
    if goal.at == OVER {
        return Next::Full;
    }
    if goal.at == TIRED {
        return Next::Tired;
    }
    let end = goal.at + 4096;
    let from = rows_at(p.answer, p.answers);
    let all = write(heap, cells, &mut levels, rows, out, goal, from, end);
    if all.at == OVER {
        return Next::Over;
    }
    if all.at == TIRED {
        return Next::Tired;
    }
    Next::Done(goal.at, all.at - goal.at)
}
