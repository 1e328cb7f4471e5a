// How far a rule of a text is read, in numbers: what each piece makes of it, or the refusal that it is (document 02, C-13).
#![tactic(auto)]

ghost use Rattle.std.specs.Prelude.{◌≡◌, List, ℕ, ◌≤◌, length};
ghost use Rattle.reading.specs.Part.{State};
ghost use Rattle.pieces.specs.Found.{Shows};
ghost use Rattle.stages.specs.Stage.{Held, Somewhere, Settled, is_opening_found, Turned};

use crate::naming::{name, variable};
use crate::signs::{arrow, closing, comma, half, opening, settle, stop};
use pieces::{Found, Refusal, unexpected};

pub mod counting; // formulas and arguments
pub mod variables; // the variables of a rule
pub mod signs; // brackets, commas, `:-` and full stops
pub mod naming; // names and variables

// Between two rules; before a formula or an argument that must come; behind a name, whose bracket may follow; behind a formula or an argument.
#[derive(Clone, Copy)]
pub enum Mode {
    Between,
    Expects,
    Named,
    Complete,
}

// What may stand next, and the name whose bracket may follow; how many brackets are open; how many formulas, nodes, variables and rules there are.
// The counts of arguments and the variables' places stand beside it, in slices: most functions read one of the two or neither, and a struct of all three, lent whole, is no plainer.
#[derive(Clone, Copy)]
pub struct Stage {
    pub mode: Mode,
    pub at: usize,
    pub len: usize,
    pub depth: usize,
    pub formulas: usize,
    pub nodes: usize,
    pub variables: usize,
    pub rules: usize,
}

pub fn is_opening(found: Found) -> bool
    ensures { result ≡ is_opening_found found }
{
    matches!(found, Found::Opening)
}

// A piece that is no opening bracket, where no bracket may follow.
fn behind(
    text: &[u8],
    counts: &mut [u16],
    vars: &mut [u16],
    c: Stage,
    at: usize,
    found: Found,
) -> Result<Stage, Refusal>
    requires { ((s : State) × Held text.now counts.old vars.old c s) × Settled c.mode × Shows text.now at found × (length text.now ≤ 65536) }
    ensures { (s : State) → Held text.now counts.old vars.old c s → Turned text.now counts.new vars.new s at found result }
{
    match found {
        Found::Name(end) => name(counts, c, at, end - at),
        Found::Variable(end) => variable(text, counts, vars, c, at, end - at),
        Found::Space | Found::Comment(_) => Ok(c),
        Found::Closing => closing(counts, c, at),
        Found::Comma => comma(counts, c, at),
        Found::Arrow => arrow(c, at),
        Found::Stop => stop(c, at),
        Found::HalfArrow => half(arrow(c, at), at),
        Found::HalfStop => half(stop(c, at), at),
        Found::Opening | Found::Nothing => Err(unexpected(at)),
    }
}

// One piece of the text: the stage behind it, or its refusal.
pub fn turn(
    text: &[u8],
    counts: &mut [u16],
    vars: &mut [u16],
    c: Stage,
    at: usize,
    found: Found,
) -> Result<Stage, Refusal>
    requires { ((s : State) × Held text.now counts.old vars.old c s) × Shows text.now at found × (length text.now ≤ 65536) }
    ensures { (s : State) → Held text.now counts.old vars.old c s → Turned text.now counts.new vars.new s at found result }
{
    if is_opening(found) {
        return opening(counts, c, at);
    }
    let d = settle(counts, c);
    behind(text, counts, vars, d, at, found)
}
