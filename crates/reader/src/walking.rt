// One pass over a text, piece by piece.
ghost use Rattle.std.specs.Prelude.{◌≡◌, List, ℕ, ◌<◌, ◌≤◌, length};
ghost use Rattle.reading.specs.Part.{State};
ghost use Rattle.pieces.specs.Found.{Shows};
ghost use Rattle.stages.specs.Stage.{Held};
ghost use Rattle.reader.specs.Kept.{Numbered};
ghost use Rattle.reader.specs.Walking.{starting, blank, ends, Empty, Ends, Grows, Grown};

use crate::{Turn, build};
use drafts::Draft;
use pieces::{Found, Refusal, end_of, piece_at, unexpected};
use stages::variables::number;
use stages::{Mode, Stage, turn};

// The number of the variable at a place. It is 0 for another piece, since it is read beside `Found::Variable` alone: an `Option` would be taken apart there a second time, and be no plainer.
fn number_of(text: &[u8], vars: &[u16], n: usize, at: usize, found: Found) -> usize
    requires { ((counts : List ℕ) × ((c : Stage) × ((s : State) × Held text.now counts vars.now c s × (c.variables ≡ n)))) × Shows text.now at found }
    ensures { ((counts : List ℕ) (c : Stage) (s : State) → Held text.now counts vars.now c s → c.variables ≡ n → Numbered text.now at found result s) × (result < 65536) }
{
    match found {
        Found::Variable(end) => number(text, vars, n, at, end - at),
        _ => 0,
    }
}

fn start() -> Stage
    ensures { result ≡ starting }
{
    Stage {
        mode: Mode::Between,
        at: 0,
        len: 0,
        depth: 0,
        formulas: 0,
        nodes: 0,
        variables: 0,
        rules: 0,
    }
}

fn first() -> Draft
    ensures { result ≡ blank }
{
    Draft {
        from: 2,
        len: 0,
        constants: 0,
        compounds: 0,
        predicates: 0,
    }
}

// The end of the text: all rules are read, or the last one is not at its end.
fn end(c: Stage, b: Draft, at: usize) -> Result<Draft, Refusal>
    ensures { result ≡ ends c.mode b at }
{
    match c.mode {
        Mode::Between => Ok(b),
        _ => Err(unexpected(at)),
    }
}

// What a piece adds, as long as the book can still be of 32,768 bytes.
fn grow(
    text: &[u8],
    starts: &mut [u16],
    lens: &mut [u8],
    heads: &mut [u16],
    nexts: &mut [u16],
    out: &mut [u8],
    opens: &mut [u16],
    w: Turn,
) -> Draft
    requires { Grows text.now out.old opens.old starts.old lens.old heads.old nexts.old w }
    ensures { Grown text.now out.old out.new opens.old opens.new starts.old lens.old heads.old nexts.old starts.new lens.new heads.new nexts.new w result }
{
    let b = w.draft;
    if 32769 < b.from {
        return b;
    }
    build(text, starts, lens, heads, nexts, out, opens, w)
}

// A text of at most 65,536 bytes.
pub fn walk(
    text: &[u8],
    starts: &mut [u16],
    lens: &mut [u8],
    heads: &mut [u16],
    nexts: &mut [u16],
    out: &mut [u8],
    opens: &mut [u16],
) -> Result<Draft, Refusal>
    requires { (length text.now ≤ 65536) × Empty text.now out.old opens.old starts.old lens.old heads.old nexts.old }
    ensures { Ends text.now out.new opens.new starts.new lens.new heads.new nexts.new result }
{
    let mut counts = [0u16; 256];
    let mut vars = [0u16; 128];
    let mut c = start();
    let mut b = first();
    let mut at = 0;
    while at < text.len() {
        let found = piece_at(text, at);
        let v = number_of(text, &vars, c.variables, at, found);
        let next = turn(text, &mut counts, &mut vars, c, at, found)?;
        b = grow(
            text,
            starts,
            lens,
            heads,
            nexts,
            out,
            opens,
            Turn {
                draft: b,
                stage: c,
                found,
                v,
            },
        );
        c = next;
        at = end_of(found, at);
    }
    end(c, b, at)
}
