// Name lists (document 02, C-13 and C-14): whether bytes are one, and where the name of a symbol stands in it.
#![tactic(auto)]

ghost use Rattle.std.specs.Prelude.{◌≡◌, List, ◌∷◌, ℕ, suc, ◌+◌, ◌<◌, ◌≤◌, ◌&&◌, eqb, length, get_or};
ghost use Rattle.std.specs.List.{list_all};
ghost use Rattle.format.specs.Reading.{number_at};
ghost use Rattle.grammar.specs.Byte.{goes_on};
ghost use Rattle.grammar.specs.Names as Names;
ghost use Rattle.namelist.specs.List.{Entry, naming};
ghost use Rattle.namelist.specs.Bytes.{is_name, name_at, rank_at, past, entry_good, good_from, shares_at, unshared, all_unshared, is_list};
ghost use Rattle.namelist.specs.ListLaws.{Stands};
ghost use Rattle.namelist.specs.NamingLaws.{GivesName};
ghost use Rattle.namelist.specs.Sorts.{sort_named};

use pieces::{goes_on, small};
use records::record::number_at;

// "a small ASCII letter, then letters, digits or underscores"
fn is_name(name: &[u8]) -> bool
    ensures { result ≡ is_name name.now }
{
    match name {
        [first, rest @ ..] => small(*first) && all_go_on(rest),
        [] => false,
    }
}

fn all_go_on(rest: &[u8]) -> bool
    ensures { result ≡ list_all goes_on rest.now }
{
    rest.iter().all(|b| goes_on(*b))
}

// A symbol's rank among all, by kind and then number.
fn rank_at(s: &[u8], at: usize) -> usize
    requires { at + 4 ≤ length s.now }
    ensures { (result ≡ rank_at s.now at) × (result < 16777216) }
{
    usize::from(s[at]) * 65536 + usize::from(number_at(s, at + 1))
}

// Where the entry after the one at a place stands.
fn past(s: &[u8], at: usize) -> usize
    requires at_in_bounds { at + 4 ≤ length s.now }
    requires at_in_bounds_2 { past s.now at ≤ length s.now }
    ensures { result ≡ past s.now at }
{
    at + 4 + usize::from(s[at + 3])
}

fn name_at(s: &[u8], at: usize) -> &[u8]
    requires at_in_bounds { at + 4 ≤ length s.now }
    requires at_in_bounds_2 { past s.now at ≤ length s.now }
    ensures { result.now ≡ name_at s.now at }
{
    &s[at + 4..past(s, at)]
}

// Whether an entry is whole, of this rank or more, and has a name of 1 to 32 bytes.
fn entry_good(s: &[u8], at: usize, floor: usize) -> bool
    requires { at < length s.now }
    ensures { result ≡ entry_good s.now at floor }
{
    let left = s.len() - at;
    if left < 4 {
        return false;
    }
    let kind = s[at];
    if kind < 2 {
        return false;
    }
    if 4 < kind {
        return false;
    }
    if rank_at(s, at) < floor {
        return false;
    }
    let len = usize::from(s[at + 3]);
    if 32 < len {
        return false;
    }
    if left < 4 + len {
        return false;
    }
    is_name(name_at(s, at))
}

fn entries_good(s: &[u8]) -> bool
    ensures { result ≡ good_from (suc (length s.now)) s.now 0 0 }
{
    let mut at = 0;
    let mut floor = 0;
    while at < s.len() {
        if !entry_good(s, at, floor) {
            return false;
        }
        floor = rank_at(s, at) + 1;
        at = past(s, at);
    }
    true
}

// Whether two entries are of one sort and have one name.
fn shares(s: &[u8], a: usize, b: usize) -> bool
    requires a_in_bounds { (a + 4 ≤ length s.now) × (past s.now a ≤ length s.now) }
    requires b_in_bounds { (b + 4 ≤ length s.now) × (past s.now b ≤ length s.now) }
    ensures { result ≡ shares_at s.now a b }
{
    s[a] == s[b] && name_at(s, a) == name_at(s, b)
}

// Whether no later entry of its sort has the name of the one at a place.
fn unshared(s: &[u8], at: usize) -> bool
    requires { (x : Entry) × (l : List Entry) × Stands s.now at (x ∷ l) }
    ensures { (x : Entry) (l : List Entry) → Stands s.now at (x ∷ l) → result ≡ unshared x l }
{
    let mut i = past(s, at);
    while i < s.len() {
        if shares(s, at, i) {
            return false;
        }
        i = past(s, i);
    }
    true
}

fn all_unshared(s: &[u8]) -> bool
    requires { (l : List Entry) × Stands s.now 0 l }
    ensures { (l : List Entry) → Stands s.now 0 l → result ≡ all_unshared l }
{
    let mut at = 0;
    while at < s.len() {
        if !unshared(s, at) {
            return false;
        }
        at = past(s, at);
    }
    true
}

// Whether bytes are "a list .. in C-13's form", with no "name shared by two symbols of one sort".
pub fn is_list(s: &[u8]) -> bool
    ensures { result ≡ is_list s.now }
{
    if !entries_good(s) {
        return false;
    }
    all_unshared(s)
}

// What a symbol is of.
#[derive(Clone, Copy)]
pub enum Sort {
    Constant,
    Compound,
    Predicate,
}

// The kind of the records and of the entries of a sort.
fn kind(sort: Sort) -> u8
    ensures { result ≡ Names.kind (sort_named sort) }
{
    match sort {
        Sort::Constant => 2,
        Sort::Compound => 3,
        Sort::Predicate => 4,
    }
}

// Whether the entry at a place is that of a symbol.
fn is_entry(s: &[u8], at: usize, kind: u8, wanted: usize) -> bool
    requires { at + 4 ≤ length s.now }
    ensures { result ≡ (eqb kind (get_or s.now at 0) && eqb wanted (number_at s.now (at + 1))) }
{
    s[at] == kind && usize::from(number_at(s, at + 1)) == wanted
}

// The name of a symbol in a list.
pub fn find(s: &[u8], sort: Sort, wanted: usize) -> Option<&[u8]>
    requires { (l : List Entry) × Stands s.now 0 l }
    ensures { (l : List Entry) → Stands s.now 0 l → GivesName result (naming l (sort_named sort) wanted) }
{
    let kind = kind(sort);
    let mut at = 0;
    while at < s.len() {
        if is_entry(s, at, kind, wanted) {
            return Some(name_at(s, at));
        }
        at = past(s, at);
    }
    None
}
