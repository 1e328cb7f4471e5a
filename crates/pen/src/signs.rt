// What stands before a formula and behind a clause, by its turn.
ghost use Rattle.std.specs.Prelude.{◌≡◌};
ghost use Rattle.printouts.specs.Walk.{sign, ending, next_turn};
ghost use Rattle.printouts.specs.Laying.{Lays};

use crate::laying::put_all;
use printouts::Turn;

// What stands before a formula.
pub fn put_sign(area: &mut [u8], at: usize, turn: Turn) -> usize
    ensures { Lays area.old area.new at result (sign turn) }
{
    match turn {
        Turn::First => put_all(area, at, b" :- "),
        Turn::Later => put_all(area, at, b", "),
        Turn::Start | Turn::Head | Turn::Goal => at,
    }
}

// "one clause a line ended by LF"
pub fn put_ending(area: &mut [u8], at: usize, turn: Turn) -> usize
    ensures { Lays area.old area.new at result (ending turn) }
{
    match turn {
        Turn::Start => at,
        Turn::Head | Turn::First | Turn::Later | Turn::Goal => put_all(area, at, b".\n"),
    }
}

// Before what the text stands behind a formula.
pub fn next_turn(turn: Turn) -> Turn
    ensures { result ≡ next_turn turn }
{
    match turn {
        Turn::Head => Turn::First,
        Turn::Start | Turn::First | Turn::Later | Turn::Goal => Turn::Later,
    }
}
