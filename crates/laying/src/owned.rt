// The query's own words, each by where it stands first and its length: variables, and names that no list has given. A sort has 4,096 places.
ghost use Rattle.std.specs.Prelude.{◌≡◌, List, true, ℕ, ◌+◌, ◌-◌, ◌<◌, ◌≤◌, length, get_or, set};
ghost use Rattle.grammar.specs.Names.{same_name, place, lone};
ghost use Rattle.nametable.specs.Table.{word};
ghost use Rattle.laying.specs.Words.{Modest, base_of, code_of, own_of, with_one, given_of, Words, Notes, Noted, Numbering, VariableNumber, Naming, NamedNumber};

use crate::{Draft, Kind, Word};
use known::{Known, number_of};
use nametable::same;
use words::get;

pub fn base(kind: Kind) -> usize
    ensures { (result ≡ base_of kind) × (result ≤ 12288) }
{
    match kind {
        Kind::Variable => 0,
        Kind::Constant => 4096,
        Kind::Compound => 8192,
        Kind::Predicate => 12288,
    }
}

// The kind of a symbol in a list.
fn code(kind: Kind) -> usize
    ensures { result ≡ code_of kind }
{
    match kind {
        Kind::Variable => 1,
        Kind::Constant => 2,
        Kind::Compound => 3,
        Kind::Predicate => 4,
    }
}

pub fn own(d: Draft, kind: Kind) -> usize
    ensures { result ≡ own_of d kind }
{
    match kind {
        Kind::Variable => d.variables,
        Kind::Constant => d.constants,
        Kind::Compound => d.compounds,
        Kind::Predicate => d.predicates,
    }
}

// How many the list has given.
fn given(g: Known, kind: Kind) -> usize
    ensures { result ≡ given_of g kind }
{
    match kind {
        Kind::Variable => 0,
        Kind::Constant => g.constants,
        Kind::Compound => g.compounds,
        Kind::Predicate => g.predicates,
    }
}

fn with_one(d: Draft, kind: Kind) -> Draft
    requires { Modest d }
    ensures { result ≡ with_one d kind }
{
    match kind {
        Kind::Variable => Draft {
            variables: d.variables + 1,
            ..d
        },
        Kind::Constant => Draft {
            constants: d.constants + 1,
            ..d
        },
        Kind::Compound => Draft {
            compounds: d.compounds + 1,
            ..d
        },
        Kind::Predicate => Draft {
            predicates: d.predicates + 1,
            ..d
        },
    }
}

// Whether the word at place i of the table is the one in the text.
fn is_word(text: &[u8], table: &[u16], i: usize, at: usize, len: usize) -> bool
    requires { (16384 + i < length table.now) × (at + len ≤ length text.now) × (get_or table.now i 0 + (get_or table.now (16384 + i) 0 + 1) ≤ length text.now) }
    ensures { result ≡ same_name (word text.now at len) (word text.now (get_or table.now i 0) (get_or table.now (16384 + i) 0 + 1)) }
{
    get(table, 16384 + i) + 1 == len && same(text, at, get(table, i), len)
}

// The number of a word among n words; one that is not among them gets the next, n.
fn find(text: &[u8], table: &[u16], from: usize, n: usize, at: usize, len: usize) -> usize
    requires { ((names : List (List ℕ)) × Words text.now table.now from names n) × (length table.now ≡ 32768) × (from + n ≤ 16384) × (at + len ≤ length text.now) }
    ensures { ((names : List (List ℕ)) → Words text.now table.now from names n → result ≡ place (word text.now at len) names) × (result ≤ n) }
{
    for i in 0..n {
        if is_word(text, table, from + i, at, len) {
            return i;
        }
    }
    n
}

fn lone(text: &[u8], at: usize, len: usize) -> bool
    requires { at + len ≤ length text.now }
    ensures { result ≡ lone (word text.now at len) }
{
    len == 1 && text[at] == b'_'
}

// "each lone `_` a new variable"
pub fn number_of_variable(text: &[u8], table: &[u16], d: Draft, at: usize, len: usize) -> usize
    requires { Numbering text.now table.now d × (at + len ≤ length text.now) }
    ensures { VariableNumber text.now table.now d (word text.now at len) result }
{
    if lone(text, at, len) {
        return d.variables;
    }
    find(text, table, 0, d.variables, at, len)
}

// The number of a name: in the list, or behind it among the query's own.
pub fn number_of_name(
    text: &[u8],
    names: &[u8],
    table: &[u16],
    g: Known,
    d: Draft,
    w: Word,
) -> usize
    requires { Naming text.now names.now table.now g d w }
    ensures { NamedNumber text.now names.now table.now d w result }
{
    let kind = w.kind;
    let at = w.at;
    let len = w.len;
    if let Some(n) = number_of(names, code(kind), &text[at..at + len]) {
        return n;
    }
    given(g, kind) + find(text, table, base(kind), own(d, kind), at, len)
}

// A place and a length, less one.
fn put_word(table: &mut [u16], i: usize, at: usize, len: usize)
    requires { (i < 16384) × (length table.old ≡ 32768) × (at < 65536) × (0 < len) × (len ≤ 65536) }
    ensures { table.new ≡ set (set table.old i at) (16384 + i) (len - 1) }
{
    table[i] = at as u16;
    table[16384 + i] = (len - 1) as u16;
}

// A word whose number is new is put behind the others of its kind.
pub fn note(table: &mut [u16], g: Known, d: Draft, w: Word, n: usize) -> Draft
    requires { Notes table.old g d w }
    ensures { Noted table.old table.new g d w n result }
{
    let kind = w.kind;
    let own = own(d, kind);
    if n < given(g, kind) + own {
        return d;
    }
    put_word(table, base(kind) + own, w.at, w.len);
    with_one(d, kind)
}
