// How large the next goal and answer are at most, by what the trial has bound and what the clause's body adds.
ghost use Rattle.std.specs.Prelude.{◌≡◌, ◌⊎◌, IfSome, List, ℕ, ◌*◌, ◌≤◌, ◌<◌, length};
ghost use Rattle.terms.specs.Node.{Expr};
ghost use Rattle.search.specs.Next.{Clause, Goal};
ghost use Rattle.bounds.specs.Sizing.{Weighed};
ghost use Rattle.figures.specs.Figures.{first_of};
ghost use Rattle.trials.specs.Trying.{trail};
ghost use Rattle.heapgoals.specs.HoldLaws.{Fore};
ghost use Rattle.treads.specs.Stepping.{IsUnderWay, body_rows, Bounded};
ghost use Rattle.treads.specs.Adding.{span_words, Led, Adds, Often, Summed, Grows};

use bounds::{Weight, size_of, weight_of};
use figures::Figure;
use heapgoals::Standing;
use words::rows::CELLS;

// Where a clause stands in the book, where its head ends, how many formulas its body has, and its figure.
#[derive(Clone, Copy)]
pub struct Span {
    pub start: usize,
    pub head: usize,
    pub end: usize,
    pub bodies: usize,
    pub figure: Figure,
}

// What the body comes with: the next goal has so many nodes more, and so many less, and so many places of variables more; its first formula has so many nodes at least; and
// all variables of the clause are below a number.
#[derive(Clone, Copy)]
pub struct Added {
    pub nodes: usize,
    pub less: usize,
    pub variables: usize,
    pub least: usize,
    pub names: usize,
}

// The first formula of the next goal grows as the one before did, where each variable of the head is as often in it.
fn led(least: usize, whole: bool, head: usize, first: usize) -> usize
    requires { (least ≤ 4096) × (first < 65536) }
    ensures { Led least whole head first result }
{
    if whole && head < least {
        return least - head + first;
    }
    first
}

// None where the body is not known to be short.
fn body_adds(heap: &[u32], cells: &[u16], levels: &mut [u16], s: Standing, c: Span) -> Option<Added>
    requires { ((book : List ℕ) × (words : List ℕ) × (before : List ℕ) × (rests : List ℕ) × (tables : List ℕ) × (count : ℕ) × (f : Expr) × (g : Goal) × (a : Goal) × (d : Clause) × IsUnderWay book words before rests s c heap.now cells.now tables count f g a d) × (514 ≤ length levels.old) }
    ensures { (book words before rests tables : List ℕ) (count : ℕ) (f : Expr) (g a : Goal) (d : Clause) → IsUnderWay book words before rests s c heap.now cells.now tables count f g a d → IfSome result (Adds (span_words book c) heap.now cells.now s c (length (first_of (body_rows heap.now s c)))) }
{
    let first = c.figure.first;
    let head = c.head - c.start;
    if let Some(x) = c.figure.thrift {
        return Some(Added {
            nodes: c.end - c.head,
            less: head,
            variables: x.fresh,
            least: led(s.least, x.whole, head, first),
            names: x.names,
        });
    }
    let y = size_of(heap, cells, levels, s.top + head, c.bodies, 256)?;
    Some(Added {
        nodes: y.nodes,
        less: 0,
        variables: y.variables,
        least: first,
        names: 64,
    })
}

// The bounds of the next goal and answer.
#[derive(Clone, Copy)]
pub struct Bounds {
    pub nodes: usize,
    pub found: usize,
    pub variables: usize,
    pub most: usize,
    pub least: usize,
    pub names: usize,
}

// How often any one variable is in the next goal and answer, which have so many places of variables. Those of the body that the head has not are in neither before; where the body is counted, less is known.
fn often(s: Standing, more: Added, times: usize, variables: usize) -> usize
    requires { (s.most ≤ 8192) × (times ≤ 553648129) }
    ensures { Often s more times variables result }
{
    if more.less == 0 {
        return variables;
    }
    more.variables.max(s.most * times).min(variables)
}

// The places of variables in goal and answer that a trial has bound something at, where it has bound so many variables.
fn places_bound(s: Standing, count: usize) -> usize
    requires { (s.most ≤ 8192) × (count ≤ 8448) }
    ensures { ((result ≡ s.most * count) ⊎ (result ≡ s.variables)) × (result ≤ s.variables) }
{
    (s.most * count).min(s.variables)
}

// What is bound adds so many nodes to goal and answer each, and gives them so many places of variables; any one variable is so many times as often by it. None where they are not known
// to have room.
fn bounded(s: Standing, more: Added, extra: usize, places: usize, times: usize) -> Option<Bounds>
    requires most_bound { (s.most ≤ 8192) × (s.nodes ≤ 4096) × (s.found ≤ 4096) × (more.nodes ≤ 65535) × (more.variables ≤ 65535) }
    requires extra_bound { (extra ≤ 536862720) × (places ≤ 536862720) × (times ≤ 553648129) }
    ensures { IfSome result (Summed s more extra places times) }
{
    let total = s.nodes + extra + more.nodes;
    if total < more.less {
        return None;
    }
    let nodes = total - more.less;
    let found = s.found + extra;
    if 4096 < nodes {
        return None;
    }
    if 4096 < found {
        return None;
    }
    let variables = (more.variables + places).min(nodes + found);
    Some(Bounds {
        nodes,
        found,
        variables,
        most: often(s, more, times, variables),
        least: more.least,
        names: more.names,
    })
}

// By what a trial has bound, so many variables, which weigh so much.
fn grown_by(s: Standing, more: Added, grown: Weight, count: usize) -> Option<Bounds>
    requires variables_bound { (s.variables ≤ 8192) × (s.most ≤ 8192) × (s.nodes ≤ 4096) × (s.found ≤ 4096) × (more.nodes ≤ 65535) × (more.variables ≤ 65535) × (count ≤ 8448) }
    requires le_nodes { (1 ≤ grown.nodes) × (grown.nodes ≤ 65535) × (grown.variables ≤ grown.nodes) × (grown.times ≤ 553648129) }
    ensures { IfSome result (Grows s more grown count) }
{
    let extra = places_bound(s, count) * (grown.nodes - 1);
    bounded(s, more, extra, s.variables * grown.variables, grown.times)
}

pub fn sized(
    heap: &[u32],
    cells: &[u16],
    rows: &[u16; CELLS],
    levels: &mut [u16],
    s: Standing,
    c: Span,
    count: usize,
    known: Option<Weight>,
) -> Option<Bounds>
    requires { ((book : List ℕ) × (words : List ℕ) × (before : List ℕ) × (f : Expr) × (g : Goal) × (a : Goal) × (d : Clause) × IsUnderWay book words before levels.old s c heap.now cells.now rows.now count f g a d) × Weighed heap.now cells.now s.base (trail rows.now) count known }
    ensures levels { Fore levels.old levels.new }
    ensures bounds { IfSome result (λ r. (book words before : List ℕ) (f : Expr) (g a : Goal) (d : Clause) → IsUnderWay book words before levels.new s c heap.now cells.now rows.now count f g a d → Bounded heap.now cells.now levels.new s c r) }
{
    let more = body_adds(heap, cells, &mut levels[514..1028], s, c)?;
    if count == 0 {
        return bounded(s, more, 0, s.variables, 1); // where a formula only asks, the clause's variables alone are bound
    }
    let grown = weight_of(
        heap,
        cells,
        &mut levels[514..1028],
        &rows[16512..24960],
        count,
        known,
    )?;
    grown_by(s, more, grown, count)
}
