// After a trial no variable is bound any more, without a look at all of them.
ghost use Rattle.std.specs.Prelude.{◌≡◌, length};
ghost use Rattle.matching.specs.TrialLaws.{Free};
ghost use Rattle.trials.specs.Trying.{Undoable};

use crate::BASE;
use heapgoals::clear;
use matching::binding::undo;
use words::rows::CELLS;

// The goal's variables by the trail, and the clause's, which no trail has.
pub fn release(cells: &mut [u16], rows: &[u16; CELLS], count: usize)
    requires { (length cells.old ≡ 8256) × Undoable cells.old rows.now count }
    ensures { Free cells.new }
{
    undo(cells, &rows[16512..24960], count);
    clear(cells, BASE, BASE + 64);
}
