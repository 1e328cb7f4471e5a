// The nodes of the rule that is being read, as bytes, with the numbers of their names (document 02, C-13).
#![tactic(auto)]

ghost use Rattle.std.specs.Prelude.{◌≡◌, List, ◌++◌, ℕ, ◌+◌, ◌<◌, ◌≤◌, length, take};
ghost use Rattle.grammar.specs.Names.{Spot, Sort};
ghost use Rattle.nametable.specs.Table.{word};
ghost use Rattle.drafts.specs.Writing.{Wrote, symbol_bytes};
ghost use Rattle.drafts.specs.Drafted.{section_of, counted_of, Drafted, Somewhere, Adds, AddsVariable};

use crate::writing::{put3, put4};
use symbols::{Section, next, number_in};

pub mod writing; // records as bytes

#[derive(Clone, Copy)]
pub enum Kind {
    Constant,
    Compound,
    Predicate,
}

// Where the nodes of the rule stand, how many bytes they have, and how many names of each sort there are.
#[derive(Clone, Copy)]
pub struct Draft {
    pub from: usize,
    pub len: usize,
    pub constants: usize,
    pub compounds: usize,
    pub predicates: usize,
}

// A name in the text, and what it is a name of.
#[derive(Clone, Copy)]
pub struct Named {
    pub kind: Kind,
    pub at: usize,
    pub len: usize,
}

fn section(b: Draft, kind: Kind) -> Section
    ensures { result ≡ section_of b kind }
{
    match kind {
        Kind::Constant => Section {
            from: 0,
            room: 11264,
            heads: 0,
            count: b.constants,
        },
        Kind::Compound => Section {
            from: 11264,
            room: 8448,
            heads: 4096,
            count: b.compounds,
        },
        Kind::Predicate => Section {
            from: 19712,
            room: 8448,
            heads: 8192,
            count: b.predicates,
        },
    }
}

// With so many names of a sort, and so many bytes.
fn counted(b: Draft, kind: Kind, count: usize, len: usize) -> Draft
    ensures { result ≡ counted_of b kind count len }
{
    match kind {
        Kind::Constant => Draft {
            len,
            constants: count,
            ..b
        },
        Kind::Compound => Draft {
            len,
            compounds: count,
            ..b
        },
        Kind::Predicate => Draft {
            len,
            predicates: count,
            ..b
        },
    }
}

// The record of a symbol that has no argument yet; how many bytes it has.
fn put_symbol(out: &mut [u8], at: usize, kind: Kind, number: usize) -> usize
    requires { (at + 4 ≤ length out.old) × (number < 65536) }
    ensures { Wrote out.old out.new at (symbol_bytes kind number) × (result ≡ length (symbol_bytes kind number)) }
{
    match kind {
        Kind::Constant => {
            put3(out, at, 2, number);
            3
        }
        Kind::Compound => {
            put4(out, at, 3, number);
            4
        }
        Kind::Predicate => {
            put4(out, at, 4, number);
            4
        }
    }
}

// One more node, a symbol that has no argument yet.
pub fn symbol(
    text: &[u8],
    starts: &mut [u16],
    lens: &mut [u8],
    heads: &mut [u16],
    nexts: &mut [u16],
    out: &mut [u8],
    b: Draft,
    w: Named,
) -> Draft
    requires somewhere { Somewhere text.now out.old starts.old lens.old heads.old nexts.old b }
    requires len_bound { (b.len ≤ 1020) × (w.at + w.len ≤ length text.now) × (w.at < 65536) × (w.len < 256) }
    ensures { Adds text.now out.old out.new starts.old lens.old heads.old nexts.old starts.new lens.new heads.new nexts.new b w.kind (word text.now w.at w.len) result }
{
    let Named { kind, at, len } = w;
    let c = section(b, kind);
    let number = number_in(text, starts, lens, heads, nexts, c, at, len);
    let d = next(c, number);
    let more = put_symbol(out, b.from + b.len, kind, number);
    counted(b, kind, d.count, b.len + more)
}

// One more node, a variable by its number.
pub fn variable(out: &mut [u8], b: Draft, v: usize) -> Draft
    requires { (b.from + b.len + 3 ≤ length out.old) × (v < 65536) }
    ensures { AddsVariable out.old out.new b v result }
{
    put3(out, b.from + b.len, 1, v);
    Draft {
        len: b.len + 3,
        ..b
    }
}
