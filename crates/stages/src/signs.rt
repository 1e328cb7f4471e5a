// Brackets, commas, `:-` and full stops; a name that stands alone.
ghost use Rattle.std.specs.Prelude.{◌≡◌, List, ℕ, ◌-◌, ◌<◌, ◌≤◌, length, set};
ghost use Rattle.grammar.specs.Token.{opening, closing, comma, arrow, stop};
ghost use Rattle.reading.specs.Part.{Part, State, settle, comma_may};
ghost use Rattle.reading.specs.Reader.{judge_token};
ghost use Rattle.stages.specs.Stage.{Deep, root_count, raised, Held, Somewhere, Anywhere, Settled, opened, closed_to, expecting, finished, After, halved};

use crate::counting::{complete, raise};
use crate::naming::with_argument;
use crate::{Mode, Stage};
use pieces::{Refusal, unexpected};
use words::get;

// Behind a blank, or before a token that is no bracket: a name stands alone, as a formula or as an argument that is a constant.
pub fn settle(counts: &mut [u16], c: Stage) -> Stage
    requires { Somewhere counts.old c }
    ensures { ((text vars : List ℕ) (s : State) → Held text counts.old vars c s → Held text counts.new vars result (settle s)) × Settled result.mode }
{
    match c.mode {
        Mode::Named => with_argument(counts, c, c.variables),
        _ => c,
    }
}

// "a bracket follows its name at once"
fn bracket(counts: &mut [u16], c: Stage) -> Stage
    requires { Somewhere counts.old c × (c.nodes < 256) × (c.depth < 256) }
    ensures { (result ≡ opened c) × (counts.new ≡ set counts.old c.depth 0) }
{
    counts[c.depth] = 0;
    Stage {
        mode: Mode::Expects,
        depth: c.depth + 1,
        nodes: c.nodes + 1,
        ..c
    }
}

pub fn opening(counts: &mut [u16], c: Stage, at: usize) -> Result<Stage, Refusal>
    requires { Somewhere counts.old c }
    ensures { (text vars : List ℕ) (s : State) → Held text counts.old vars c s → After text counts.new vars (judge_token s at opening) result }
{
    match c.mode {
        Mode::Named => Ok(bracket(counts, c)),
        _ => Err(unexpected(at)),
    }
}

// The innermost bracket is closed.
fn shut(counts: &mut [u16], c: Stage) -> Stage
    requires { Somewhere counts.old c × (0 < c.depth) }
    ensures { (result ≡ closed_to c (c.depth - 1)) × (counts.new ≡ raised (c.depth - 1) counts.old) }
{
    let depth = c.depth - 1;
    let formulas = raise(counts, depth, c.formulas);
    Stage {
        mode: Mode::Complete,
        depth,
        formulas,
        ..c
    }
}

pub fn closing(counts: &mut [u16], c: Stage, at: usize) -> Result<Stage, Refusal>
    requires { Somewhere counts.old c × Settled c.mode }
    ensures { (text vars : List ℕ) (s : State) → Held text counts.old vars c s → After text counts.new vars (judge_token s at closing) result }
{
    if !complete(c.mode) {
        return Err(unexpected(at));
    }
    if c.depth == 0 {
        return Err(unexpected(at));
    }
    if get(counts, c.depth - 1) == 0 {
        return Err(unexpected(at));
    }
    Ok(shut(counts, c))
}

fn expecting(c: Stage) -> Stage
    ensures { result ≡ expecting c }
{
    Stage {
        mode: Mode::Expects,
        ..c
    }
}

pub fn comma(counts: &[u16], c: Stage, at: usize) -> Result<Stage, Refusal>
    requires { Somewhere counts.now c × Settled c.mode }
    ensures { (text vars : List ℕ) (s : State) → Held text counts.now vars c s → After text counts.now vars (judge_token s at comma) result }
{
    if !complete(c.mode) {
        return Err(unexpected(at));
    }
    if comma_may(counts, c.depth, c.formulas) {
        return Ok(expecting(c));
    }
    Err(unexpected(at))
}

// A comma stands behind an argument, and behind a formula of the body.
fn comma_may(counts: &[u16], depth: usize, formulas: usize) -> bool
    requires { depth ≤ length counts.now }
    ensures { (p : Part) → Deep counts.now p depth → formulas ≡ root_count p → result ≡ comma_may p }
{
    if depth == 0 {
        return 2 <= formulas;
    }
    1 <= get(counts, depth - 1)
}

// `:-` stands behind the head.
pub fn arrow(c: Stage, at: usize) -> Result<Stage, Refusal>
    requires { Settled c.mode }
    ensures { (text counts vars : List ℕ) (s : State) → Held text counts vars c s → After text counts vars (judge_token s at arrow) result }
{
    if !complete(c.mode) {
        return Err(unexpected(at));
    }
    if c.depth != 0 {
        return Err(unexpected(at));
    }
    if c.formulas != 1 {
        return Err(unexpected(at));
    }
    Ok(expecting(c))
}

// The rule is at its end.
fn finished(c: Stage) -> Stage
    requires { c.rules < 65536 }
    ensures { result ≡ finished c }
{
    Stage {
        mode: Mode::Between,
        at: 0,
        len: 0,
        depth: 0,
        formulas: 0,
        nodes: 0,
        variables: 0,
        rules: c.rules + 1,
    }
}

pub fn stop(c: Stage, at: usize) -> Result<Stage, Refusal>
    requires { Anywhere c × Settled c.mode }
    ensures { (text counts vars : List ℕ) (s : State) → Held text counts vars c s → After text counts vars (judge_token s at stop) result }
{
    if !complete(c.mode) {
        return Err(unexpected(at));
    }
    if c.depth != 0 {
        return Err(unexpected(at));
    }
    if c.formulas == 0 {
        return Err(unexpected(at));
    }
    Ok(finished(c))
}

// A token that breaks off behind its first byte: the place is the second where the token might stand.
pub fn half(j: Result<Stage, Refusal>, at: usize) -> Result<Stage, Refusal>
    requires { at < 65536 }
    ensures { result ≡ halved j at }
{
    match j {
        Ok(_) => Err(unexpected(at + 1)),
        Err(_) => Err(unexpected(at)),
    }
}
