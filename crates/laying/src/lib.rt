// The nodes of a query as bytes, laid down piece by piece of its text (document 02, C-13); its names have the numbers of the list that is given, and new ones stand behind them.
#![tactic(auto)]

ghost use Rattle.std.specs.Prelude.{◌≡◌, ◌+◌, ◌-◌, ◌<◌, ◌≤◌, length};
ghost use Rattle.laying.specs.Held.{kind_of, rooted_draft, shut_draft, opens_at};
ghost use Rattle.laying.specs.Adding.{SomeWord, NameLaid, SomeVariable, VariableLaid, SomePiece, PieceLaid, Lays, Laid};

use crate::nodes::{lay, push};
use crate::owned::{number_of_name, number_of_variable};
use known::Known;
use pieces::{Found, end_of, piece_at};

mod nodes; // records, and the arities of symbols whose brackets are open
mod owned; // the query's own words

#[derive(Clone, Copy)]
pub enum Kind {
    Variable,
    Constant,
    Compound,
    Predicate,
}

// How many bytes are laid, how many brackets are open, how many formulas there are; and how many words of each kind that no list has given.
#[derive(Clone, Copy, Default)]
pub struct Draft {
    pub len: usize,
    pub depth: usize,
    pub formulas: usize,
    pub variables: usize,
    pub constants: usize,
    pub compounds: usize,
    pub predicates: usize,
}

// A word of the text.
#[derive(Clone, Copy)]
pub struct Word {
    pub kind: Kind,
    pub at: usize,
    pub len: usize,
}

// What is there before a piece of the text.
#[derive(Clone, Copy)]
pub struct Task {
    pub draft: Draft,
    pub known: Known,
    pub at: usize,
    pub found: Found,
}

// "a bracket follows its name at once"
fn opens_at(text: &[u8], at: usize) -> bool
    ensures { result ≡ opens_at text.now at }
{
    at < text.len() && text[at] == b'('
}

// What a name is: outside all brackets a predicate; otherwise by whether it has a bracket.
fn kind_of(depth: usize, bracket: bool) -> Kind
    ensures { result ≡ kind_of depth bracket }
{
    if depth == 0 {
        return Kind::Predicate;
    }
    if bracket {
        return Kind::Compound;
    }
    Kind::Constant
}

// One more formula, where the name is a predicate.
fn rooted(d: Draft) -> Draft
    requires { d.formulas < 65536 }
    ensures { result ≡ rooted_draft d }
{
    if d.depth != 0 {
        return d;
    }
    Draft {
        formulas: d.formulas + 1,
        ..d
    }
}

// A closing bracket.
fn shut(d: Draft) -> Draft
    ensures { result ≡ shut_draft d }
{
    Draft {
        depth: d.depth.saturating_sub(1),
        ..d
    }
}

// A name, and its bracket if it has one.
fn add_name(
    text: &[u8],
    names: &[u8],
    table: &mut [u16],
    out: &mut [u8],
    opens: &mut [u16],
    t: Task,
    end: usize,
) -> Draft
    requires { SomeWord text.now names.now table.old out.old opens.old t.known t.draft t.at end }
    ensures { NameLaid text.now names.now table.old table.new out.old out.new opens.old opens.new t.known t.draft t.at end result }
{
    let d = t.draft;
    let g = t.known;
    let at = t.at;
    let bracket = opens_at(text, end);
    let kind = kind_of(d.depth, bracket);
    let len = end - at;
    let w = Word { kind, at, len };
    let n = number_of_name(text, names, table, g, d, w);
    let e = rooted(lay(table, out, opens, g, d, w, n));
    if bracket {
        return push(opens, e, d.len + 3);
    }
    e
}

fn add_variable(
    text: &[u8],
    table: &mut [u16],
    out: &mut [u8],
    opens: &[u16],
    t: Task,
    end: usize,
) -> Draft
    requires { SomeVariable text.now table.old out.old opens.now t.known t.draft t.at end }
    ensures { VariableLaid text.now table.old table.new out.old out.new opens.now t.known t.draft t.at end result }
{
    let d = t.draft;
    let g = t.known;
    let at = t.at;
    let len = end - at;
    let n = number_of_variable(text, table, d, at, len);
    let kind = Kind::Variable;
    lay(table, out, opens, g, d, Word { kind, at, len }, n)
}

// What a piece adds.
fn add(
    text: &[u8],
    names: &[u8],
    table: &mut [u16],
    out: &mut [u8],
    opens: &mut [u16],
    t: Task,
    end: usize,
) -> Draft
    requires { SomePiece text.now names.now table.old out.old opens.old t end }
    ensures { PieceLaid text.now names.now table.old table.new out.old out.new opens.old opens.new t end result }
{
    match t.found {
        Found::Name(_) => add_name(text, names, table, out, opens, t, end),
        Found::Variable(_) => add_variable(text, table, out, opens, t, end),
        Found::Closing => shut(t.draft),
        _ => t.draft,
    }
}

// All pieces of a text that is a query's.
pub fn lay_text(
    text: &[u8],
    names: &[u8],
    table: &mut [u16],
    out: &mut [u8],
    opens: &mut [u16],
    known: Known,
) -> Draft
    requires { Lays text.now names.now table.old out.old opens.old known }
    ensures { Laid text.now names.now table.new out.new result }
{
    let mut d = Draft::default();
    let mut at = 0;
    while at < text.len() {
        let found = piece_at(text, at);
        let end = end_of(found, at);
        let draft = d;
        d = add(
            text,
            names,
            table,
            out,
            opens,
            Task {
                draft,
                known,
                at,
                found,
            },
            end,
        );
        at = end;
    }
    d
}
