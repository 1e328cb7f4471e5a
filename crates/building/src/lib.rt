// What each token adds to the bytes of the rule that is being read (document 02, C-13).
#![tactic(auto)]

ghost use Rattle.std.specs.Prelude.{◌≡◌, List, ℕ, ◌+◌, ◌-◌, ◌<◌, ◌≤◌, length, get_or, set};
ghost use Rattle.building.specs.Built.{kind_at, bumped, Ready, Opened, Alone, Nested, Argued, Closed, headed};

use drafts::writing::raise;
use drafts::{Draft, Kind, Named, symbol, variable};
use words::get;

// The name that a token settles, and how many brackets are open.
#[derive(Clone, Copy)]
pub struct Work {
    pub draft: Draft,
    pub depth: usize,
    pub at: usize,
    pub len: usize,
}

// One more argument of the symbol whose bracket number k is open.
fn bump(out: &mut [u8], opens: &[u16], from: usize, k: usize)
    requires { (k < length opens.now) × (from + (get_or opens.now k 0 + 3) < length out.old) × (length out.old ≤ 65536) × (get_or out.old (from + (get_or opens.now k 0 + 3)) 0 < 255) }
    ensures { out.new ≡ bumped out.old (from + (get_or opens.now k 0 + 3)) }
{
    let more = get(opens, k) + 3;
    raise(out, from + more);
}

// What a name is that has a bracket.
fn kind_at(depth: usize) -> Kind
    ensures { result ≡ kind_at depth }
{
    match depth {
        0 => Kind::Predicate,
        _ => Kind::Compound,
    }
}

// A bracket behind a name.
pub fn open(
    text: &[u8],
    starts: &mut [u16],
    lens: &mut [u8],
    heads: &mut [u16],
    nexts: &mut [u16],
    out: &mut [u8],
    opens: &mut [u16],
    w: Work,
) -> Draft
    requires { Ready text.now out.old opens.old starts.old lens.old heads.old nexts.old w }
    ensures { Opened text.now out.old out.new opens.old opens.new starts.old lens.old heads.old nexts.old starts.new lens.new heads.new nexts.new w result }
{
    let Work {
        draft: b,
        depth,
        at,
        len,
    } = w;
    opens[depth] = b.len as u16;
    let kind = kind_at(depth);
    let name = Named { kind, at, len };
    symbol(text, starts, lens, heads, nexts, out, b, name)
}

// A name that stands alone.
pub fn alone(
    text: &[u8],
    starts: &mut [u16],
    lens: &mut [u8],
    heads: &mut [u16],
    nexts: &mut [u16],
    out: &mut [u8],
    opens: &[u16],
    w: Work,
) -> Draft
    requires { Ready text.now out.old opens.now starts.old lens.old heads.old nexts.old w }
    ensures { Alone text.now out.old out.new opens.now starts.old lens.old heads.old nexts.old starts.new lens.new heads.new nexts.new w result }
{
    let Work {
        draft: b,
        depth,
        at,
        len,
    } = w;
    if depth == 0 {
        let kind = Kind::Predicate;
        let name = Named { kind, at, len };
        return symbol(text, starts, lens, heads, nexts, out, b, name);
    }
    bump(out, opens, b.from, depth - 1);
    let kind = Kind::Constant;
    let name = Named { kind, at, len };
    symbol(text, starts, lens, heads, nexts, out, b, name)
}

// One more argument, a variable by its number.
pub fn argument(out: &mut [u8], opens: &[u16], b: Draft, depth: usize, v: usize) -> Draft
    requires { Nested out.old opens.now b depth 255 × (v < 65536) }
    ensures { Argued out.old out.new opens.now b depth v result }
{
    bump(out, opens, b.from, depth - 1);
    variable(out, b, v)
}

// A closing bracket: one more argument of the symbol outside it, if there is one.
pub fn close(out: &mut [u8], opens: &[u16], b: Draft, depth: usize)
    requires { Nested out.old opens.now b depth 256 }
    ensures { Closed out.old out.new opens.now b depth }
{
    if depth < 2 {
        return;
    }
    bump(out, opens, b.from, depth - 2);
}

// The clause record before the nodes of a rule.
pub fn finish(out: &mut [u8], from: usize, formulas: usize)
    requires { (2 ≤ from) × (from ≤ length out.old) × (0 < formulas) × (formulas ≤ 17) }
    ensures { out.new ≡ headed out.old from formulas }
{
    out[from - 2] = 5;
    out[from - 1] = (formulas - 1) as u8;
}
