// Names and variables.
ghost use Rattle.std.specs.Prelude.{◌≡◌, List, ℕ, ◌+◌, ◌<◌, ◌≤◌, length};
ghost use Rattle.grammar.specs.Token.{name, variable};
ghost use Rattle.reading.specs.Part.{State};
ghost use Rattle.reading.specs.Reader.{judge_token};
ghost use Rattle.nametable.specs.Table.{word};
ghost use Rattle.stages.specs.Stage.{Held, Somewhere, Settled, After, raised, named, with_argument, expects};

use crate::counting::{awaits, limit, raise};
use crate::variables::{keep, number};
use crate::{Mode, Stage};
use pieces::{Code, Refusal, unexpected};

// Behind a name, whose bracket may follow.
fn named(c: Stage, at: usize, len: usize) -> Stage
    ensures { result ≡ named c at len }
{
    Stage {
        mode: Mode::Named,
        at,
        len,
        ..c
    }
}

pub fn name(counts: &[u16], c: Stage, at: usize, len: usize) -> Result<Stage, Refusal>
    requires { Somewhere counts.now c × Settled c.mode × (at < 65536) }
    ensures { (text vars : List ℕ) (s : State) → Held text counts.now vars c s → at + len ≤ length text → After text counts.now vars (judge_token s at (name (word text at len))) result }
{
    if !awaits(c.mode) {
        return Err(unexpected(at));
    }
    if let Some(code) = limit(counts, c) {
        return Err(Refusal { code, place: at });
    }
    if 33 <= len {
        return Err(Refusal {
            code: Code::LongName,
            place: at + 32,
        });
    }
    Ok(named(c, at, len))
}

// Whether a variable may come: where a formula must not.
fn argument_may(c: Stage) -> bool
    ensures { result ≡ expects c.mode c.depth }
{
    matches!(c.mode, Mode::Expects) && 0 < c.depth
}

// One more argument, or one more formula, behind which so many variables are known.
pub fn with_argument(counts: &mut [u16], c: Stage, variables: usize) -> Stage
    requires { Somewhere counts.old c × (c.nodes < 256) }
    ensures { (result ≡ with_argument c variables) × (counts.new ≡ raised c.depth counts.old) }
{
    let formulas = raise(counts, c.depth, c.formulas);
    Stage {
        mode: Mode::Complete,
        formulas,
        nodes: c.nodes + 1,
        variables,
        ..c
    }
}

pub fn variable(
    text: &[u8],
    counts: &mut [u16],
    vars: &mut [u16],
    c: Stage,
    at: usize,
    len: usize,
) -> Result<Stage, Refusal>
    requires { ((s : State) × Held text.now counts.old vars.old c s) × Settled c.mode × (at < 65536) × (0 < len) × (len ≤ 65536) × (at + len ≤ length text.now) }
    ensures { (s : State) → Held text.now counts.old vars.old c s → After text.now counts.new vars.new (judge_token s at (variable (word text.now at len))) result }
{
    if !argument_may(c) {
        return Err(unexpected(at));
    }
    if let Some(code) = limit(counts, c) {
        return Err(Refusal { code, place: at });
    }
    let v = number(text, vars, c.variables, at, len);
    if 64 <= v {
        return Err(Refusal {
            code: Code::Size,
            place: at,
        });
    }
    let variables = keep(vars, c.variables, v, at, len);
    Ok(with_argument(counts, c, variables))
}
