// "the name list with the new names in it" (document 02, C-13): each sort's names as they are given, and the query's own behind them.
#![tactic(auto)]

ghost use Rattle.std.specs.Prelude.{◌≡◌, List, ◌++◌, ℕ, ◌+◌, ◌-◌, ◌*◌, ◌<◌, ◌≤◌, length};
ghost use Rattle.nametable.specs.Table.{word};
ghost use Rattle.namelist.specs.List.{Entry};
ghost use Rattle.namelist.specs.ListLaws.{Stands};
ghost use Rattle.storage.specs.Storage.{Written};
ghost use Rattle.listing.specs.Lists.{noted};
ghost use Rattle.grammar.specs.Names.{Sort, list_of};
ghost use Rattle.questions.specs.Given.{given_from};
ghost use Rattle.relisting.specs.Relisted.{Skipped, Owns, Puts, Sorts, part_bytes, Owned, Relists, with_own, Sizes, Listable, constants_part, compounds_part, predicates_part};

use known::{Known, past};
use laying::Draft;
use listing::{put_bytes, put_entry};
use nametable::byte;
use words::get;

// A sort: where its names stand in the list, where the query's own stand in the table and how many they are, its kind, and how many names are given.
#[derive(Clone, Copy)]
pub struct Part {
    pub from: usize,
    pub to: usize,
    pub base: usize,
    pub count: usize,
    pub kind: u8,
    pub first: usize,
}

// Where the entries of a kind end that stand from a place on.
pub fn skip(s: &[u8], from: usize, kind: usize) -> usize
    requires { (l : List Entry) × Stands s.now from l }
    ensures { Skipped s.now from kind result }
{
    let mut at = from;
    while at < s.len() {
        if byte(s, at) != kind {
            return at;
        }
        at = past(s, at);
    }
    at
}

// How many bytes the own names of a sort have in the list. This and `put_own` are as listing's `measure` and `put_names`, where lengths are bytes of a
// table of their own: a trait for the two ways to find a length would be longer than the two loops.
pub fn measure(table: &[u16], from: usize, count: usize) -> usize
    requires { (from + count ≤ 16384) × (length table.now ≡ 32768) × (count ≤ 4096) }
    ensures { ((text : List ℕ) (names : List (List ℕ)) (kind first : ℕ) → Owns text table.now from names count → result ≡ length (noted kind first names)) × (result ≤ 65540 * count) }
{
    let mut sum = 0;
    for i in 0..count {
        sum += 5 + get(table, 16384 + (from + i));
    }
    sum
}

// The own names of a sort, numbered on from those that are given.
fn put_own(
    area: &mut [u8],
    text: &[u8],
    table: &[u16],
    from: usize,
    count: usize,
    kind: u8,
    first: usize,
) -> usize
    requires { Puts area.old text.now table.now from count kind first }
    ensures { (names : List (List ℕ)) → Owns text.now table.now from names count → Written (noted kind first names) area.old area.new result }
{
    let mut at = 0;
    for i in 0..count {
        let start = get(table, from + i);
        let len = get(table, 16384 + (from + i)) + 1;
        let rest = &mut area[at..];
        at += put_entry(rest, text, kind, first + i, start, len);
    }
    at
}

// All names of a sort.
fn put_sort(area: &mut [u8], names: &[u8], text: &[u8], table: &[u16], p: Part) -> usize
    requires { Sorts area.old names.now text.now table.now p }
    ensures { (own : List (List ℕ)) → Owns text.now table.now p.base own p.count → Written (part_bytes names.now p own) area.old area.new result }
{
    let from = p.from;
    let n = p.to - from;
    put_bytes(area, names, from, n);
    let rest = &mut area[n..];
    n + put_own(rest, text, table, p.base, p.count, p.kind, p.first)
}

fn constants_part(g: Known, d: Draft, x: usize) -> Part
    ensures { result ≡ constants_part g d x }
{
    Part {
        from: 0,
        to: x,
        base: 4096,
        count: d.constants,
        kind: 2,
        first: g.constants,
    }
}

fn compounds_part(g: Known, d: Draft, x: usize, y: usize) -> Part
    ensures { result ≡ compounds_part g d x y }
{
    Part {
        from: x,
        to: y,
        base: 8192,
        count: d.compounds,
        kind: 3,
        first: g.compounds,
    }
}

fn predicates_part(g: Known, d: Draft, y: usize, end: usize) -> Part
    ensures { result ≡ predicates_part g d y end }
{
    Part {
        from: y,
        to: end,
        base: 12288,
        count: d.predicates,
        kind: 4,
        first: g.predicates,
    }
}

// How many bytes the list has.
pub fn list_size(names: &[u8], table: &[u16], d: Draft) -> usize
    requires { Sizes table.now d × (length names.now ≤ 16777216) }
    ensures { ((text : List ℕ) (own : Sort → List (List ℕ)) (g : Known) → Relists names.now text table.now g d own → result ≡ length (list_of (with_own (given_from names.now) own))) × (result ≤ 1073741824) }
{
    let constants = measure(table, 4096, d.constants);
    let compounds = measure(table, 8192, d.compounds);
    let predicates = measure(table, 12288, d.predicates);
    names.len() + (constants + (compounds + predicates))
}

// "entries rise by kind, then number"
pub fn put_list(
    area: &mut [u8],
    names: &[u8],
    text: &[u8],
    table: &[u16],
    g: Known,
    d: Draft,
) -> usize
    requires { Listable area.old names.now text.now table.now g d }
    ensures { (own : Sort → List (List ℕ)) → Relists names.now text.now table.now g d own → length (list_of (with_own (given_from names.now) own)) ≤ length area.old → Written (list_of (with_own (given_from names.now) own)) area.old area.new result }
{
    let x = skip(names, 0, 2);
    let y = skip(names, x, 3);
    let a = put_sort(area, names, text, table, constants_part(g, d, x));
    let rest = &mut area[a..];
    let b = put_sort(rest, names, text, table, compounds_part(g, d, x, y));
    let end = a + b;
    let last = &mut area[end..];
    end + put_sort(
        last,
        names,
        text,
        table,
        predicates_part(g, d, y, names.len()),
    )
}
