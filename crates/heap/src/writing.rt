// What rows stand for written out as words, with variables numbered from 0 by first appearance.
ghost use Rattle.std.specs.Prelude.{◌≡◌, List, ℕ, ◌+◌, ◌<◌, ◌≤◌, length};
ghost use Rattle.numbering.specs.Naming.{table, back, spare, Table};
ghost use Rattle.words.specs.Word.{Valids};
ghost use Rattle.heap.specs.Heap.{Whole, Made};
ghost use Rattle.heap.specs.Walking.{Ready};
ghost use Rattle.heap.specs.Writing.{Copied, Written};

use crate::SYMBOL;
use crate::walking::{DEEPEST, Walk, next, settled};
use numbering::name;
use words::rows::CELLS;
use words::{arity, word};

// How many words are written, and how many variables have a number.
#[derive(Clone, Copy)]
pub struct Pen {
    pub at: usize,
    pub count: usize,
}

// Where a pen is that would have passed its limit.
pub const OVER: usize = 65535;

// Where a pen is that has given up, since there were too many levels; then nothing is known.
pub const TIRED: usize = 65534;

// How far a walk has come over symbols alone: its position and the rows that are due there, and how many words are written.
#[derive(Clone, Copy)]
pub struct Run {
    pub at: usize,
    pub due: usize,
    pub pen: usize,
}

// The symbols up to the first variable, the end of the rows or the limit, as they are.
pub fn symbols(heap: &[u32], out: &mut [u32], from: Run, limit: usize) -> Run
    requires valids { Valids heap.now × (length heap.now < 65536) × Whole heap.now from.due from.at }
    requires pen_le_limit { (from.pen ≤ limit) × (limit ≤ 8192) × (limit ≤ length out.old) }
    ensures { Copied heap.now out.old from limit out.new result }
{
    let mut at = from.at;
    let mut due = from.due;
    let mut pen = from.pen;
    while 0 < due {
        if pen == limit {
            return Run { at, due, pen };
        }
        let u = word(heap, at);
        if u < SYMBOL {
            return Run { at, due, pen };
        }
        out[pen] = u;
        due = due - 1 + arity(u);
        at += 1;
        pen += 1;
    }
    Run { at, due, pen }
}

// What the walk visits, behind what is written; OVER where that would pass the limit, TIRED where it gave up. Of the tables' slice, what numbering
// leaves alone stays.
pub fn write(
    heap: &[u32],
    cells: &[u16],
    levels: &mut [u16],
    rows: &mut [u16; CELLS],
    out: &mut [u32],
    pen: Pen,
    from: Walk,
    limit: usize,
) -> Pen
    requires made { Made heap.now cells.now × Ready heap.now levels.old from × (from.depth ≡ 0) }
    requires by_index { (seen : List ℕ) × Table seen (table rows.old) (back rows.old) pen.count }
    requires cells_len_bound { (length cells.now ≤ 8256) × (514 ≤ length levels.old) }
    requires count_le_at { (pen.count ≤ pen.at) × (pen.at ≤ limit) × (limit ≤ pen.at + 4096) × (limit ≤ 8192) × (limit ≤ length out.old) }
    ensures written { Written heap.now cells.now rows.old out.old pen from limit rows.new out.new result }
    ensures spare { spare rows.new ≡ spare rows.old }
{
    let mut at = pen.at;
    let mut count = pen.count;
    let mut w = from;
    while 0 < w.due {
        if at == limit {
            return Pen { at: OVER, count };
        }
        if DEEPEST <= w.depth {
            return Pen { at: TIRED, count };
        }
        let seen = next(heap, cells, levels, w);
        out[at] = seen.word;
        count = name(out, rows, at, count);
        let from = Run {
            at: seen.walk.at,
            due: seen.walk.due,
            pen: at + 1,
        };
        let run = symbols(heap, out, from, limit);
        at = run.pen;
        w = settled(
            levels,
            Walk {
                at: run.at,
                due: run.due,
                depth: seen.walk.depth,
            },
        );
    }
    Pen { at, count }
}
