// A text is read: what each of its pieces adds to the book (document 02, C-13).
#![tactic(auto)]

ghost use Rattle.std.specs.Prelude.{◌≡◌, ◌<◌, ◌≤◌};
ghost use Rattle.stages.specs.Stage.{grown};
ghost use Rattle.reader.specs.Kept.{Steps, Stepped, Turns, BuiltOn, ended, waits};

use building::{Work, alone, argument, close, finish, open};
use drafts::Draft;
use pieces::Found;
use stages::{Mode, Stage, is_opening};

pub mod walking; // one pass over a text

// Behind the rule that is finished.
fn ended(b: Draft) -> Draft
    requires { (b.from ≤ 32769) × (b.len ≤ 1024) }
    ensures { result ≡ ended b }
{
    Draft {
        from: b.from + b.len + 2,
        len: 0,
        ..b
    }
}

// What a piece adds where no name waits for its bracket.
fn add(
    out: &mut [u8],
    opens: &[u16],
    b: Draft,
    depth: usize,
    formulas: usize,
    found: Found,
    v: usize,
) -> Draft
    requires { Steps out.old opens.now b depth formulas v found }
    ensures { Stepped out.old out.new opens.now b depth formulas v found result }
{
    match found {
        Found::Variable(_) => argument(out, opens, b, depth, v),
        Found::Closing => {
            close(out, opens, b, depth);
            b
        }
        Found::Stop => {
            finish(out, b.from, formulas);
            ended(b)
        }
        _ => b,
    }
}

// A piece of the text: the draft and the stage before it, and the number of the variable if it is one.
#[derive(Clone, Copy)]
pub struct Turn {
    pub draft: Draft,
    pub stage: Stage,
    pub found: Found,
    pub v: usize,
}

// A name waits for its bracket.
fn waits(m: Mode) -> bool
    ensures { result ≡ waits m }
{
    matches!(m, Mode::Named)
}

// How many formulas there are behind a name that stands alone.
fn then(depth: usize, formulas: usize) -> usize
    requires { formulas < 65536 }
    ensures { result ≡ grown depth formulas }
{
    if depth == 0 {
        return formulas + 1;
    }
    formulas
}

// What a piece adds.
pub fn build(
    text: &[u8],
    starts: &mut [u16],
    lens: &mut [u8],
    heads: &mut [u16],
    nexts: &mut [u16],
    out: &mut [u8],
    opens: &mut [u16],
    w: Turn,
) -> Draft
    requires { Turns text.now out.old opens.old starts.old lens.old heads.old nexts.old w }
    ensures { BuiltOn text.now out.old out.new opens.old opens.new starts.old lens.old heads.old nexts.old starts.new lens.new heads.new nexts.new w result }
{
    let Turn {
        draft: b,
        stage: c,
        found,
        v,
    } = w;
    let depth = c.depth;
    if !waits(c.mode) {
        return add(out, opens, b, depth, c.formulas, found, v);
    }
    let work = Work {
        draft: b,
        depth,
        at: c.at,
        len: c.len,
    };
    if is_opening(found) {
        return open(text, starts, lens, heads, nexts, out, opens, work);
    }
    let d = alone(text, starts, lens, heads, nexts, out, opens, work);
    let more = then(depth, c.formulas);
    add(out, opens, d, depth, more, found, v)
}
