// What a clause's body adds to its head depends on the clause alone: it is found once, and kept in two words to a clause.
#![tactic(auto)]

ghost use Rattle.std.specs.Prelude.{◌≡◌, ◌+◌, ◌*◌, ◌<◌, ◌≤◌, length, get_or, IfSome, IfNone};
ghost use Rattle.search.specs.Next.{Clause};
ghost use Rattle.words.specs.Held.{ClauseIn};
ghost use Rattle.figures.specs.Figures.{figure_in, Leads, FigureOf, Slot, KeptAt};

use bounds::clauses::{Thrift, thrift_of};
use heap::past;
use words::get;

// A clause's thrift (bounds), where it has one, and how many words the first formula of its body has; a fact has none at that place, and so no words there.
#[derive(Clone, Copy)]
pub struct Figure {
    pub thrift: Option<Thrift>,
    pub first: usize,
}

fn first_of(clause: &[u32], head: usize, bodies: usize) -> usize
    requires { (c : Clause) × ClauseIn clause.now head bodies c }
    ensures { Leads clause.now head bodies result × (result ≤ 255) × (head + result ≤ length clause.now) }
{
    if bodies == 0 {
        return 0;
    }
    if bodies == 1 {
        return clause.len() - head; // all that is behind the head, so that its words need not be gone through
    }
    past(clause, head) - head
}

// The first `head` words of the clause are its head.
fn figure_of(clause: &[u32], head: usize, bodies: usize) -> Figure
    requires { (c : Clause) × ClauseIn clause.now head bodies c }
    ensures { FigureOf clause.now head bodies result }
{
    let first = first_of(clause, head, bodies);
    Figure {
        thrift: thrift_of(clause, head, head + first),
        first,
    }
}

// A figure as it is kept: `fresh` in one word, and all else in the other.
#[derive(Clone, Copy)]
struct Words {
    fresh: usize,
    rest: usize,
}

// The first word where a clause has no thrift.
const NO_THRIFT: usize = 65535;

// The second word is 0 for no clause: a body has a first formula, and a fact with no variables is whole.
fn packed(x: Figure) -> Words
    requires { (x.first ≤ 255) × IfSome x.thrift (λ t. (t.fresh ≤ 256) × (t.names ≤ 64)) }
    ensures fit { (result.fresh < 65536) × (result.rest < 65536) }
    ensures figure { figure_in result.fresh result.rest ≡ x }
{
    let first = x.first * 128;
    let Some(thrift) = x.thrift else {
        return Words {
            fresh: NO_THRIFT,
            rest: first,
        };
    };
    let rest = first + thrift.names;
    Words {
        fresh: thrift.fresh,
        rest: if thrift.whole { 32768 + rest } else { rest },
    }
}

// The figure that two words say, the second of which is not 0.
fn unpacked(fresh: usize, rest: usize) -> Figure
    ensures { result ≡ figure_in fresh rest }
{
    let first = rest / 128 % 256;
    if fresh == NO_THRIFT {
        return Figure {
            thrift: None,
            first,
        };
    }
    let thrift = Thrift {
        fresh,
        whole: 32767 < rest,
        names: rest % 128,
    };
    Figure {
        thrift: Some(thrift),
        first,
    }
}

fn kept(figures: &[u16], i: usize) -> Option<Figure>
    requires { (length figures.now ≡ 1024) × (i < 512) }
    ensures found { IfSome result (λ r. (get_or figures.now (2 * i + 1) 0 ≡ 0 → ⊥) × (r ≡ figure_in (get_or figures.now (2 * i) 0) (get_or figures.now (2 * i + 1) 0))) }
    ensures none { IfNone result (get_or figures.now (2 * i + 1) 0 ≡ 0) }
{
    let rest = get(figures, 2 * i + 1);
    if rest == 0 {
        return None;
    }
    Some(unpacked(get(figures, 2 * i), rest))
}

// Of the clause number i: as it is kept, or found and kept.
pub fn figure_at(
    clause: &[u32],
    head: usize,
    bodies: usize,
    figures: &mut [u16],
    i: usize,
) -> Figure
    requires { (length figures.old ≡ 1024) × (i < 512) × ((c : Clause) × ClauseIn clause.now head bodies c) × Slot clause.now head bodies figures.old i }
    ensures { KeptAt clause.now head bodies figures.old i figures.new result }
{
    if let Some(figure) = kept(figures, i) {
        return figure;
    }
    let at = 2 * i;
    let x = figure_of(clause, head, bodies);
    let words = packed(x);
    figures[at] = words.fresh as u16;
    figures[at + 1] = words.rest as u16;
    x
}
