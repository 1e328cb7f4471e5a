// A table of names by first appearance (document 02, C-13), found by a hash, so that a text is read in a time that grows as the text does.
#![tactic(auto)]

ghost use Rattle.std.specs.Prelude.{◌≡◌, List, ℕ, ◌+◌, ◌<◌, ◌≤◌, length, get_or};
ghost use Rattle.grammar.specs.Names.{same_name, place};
ghost use Rattle.nametable.specs.Table.{word, hash, Table, Room, Put, IsPlace, Numbered};

use words::get;

pub fn byte(text: &[u8], at: usize) -> usize
    requires { at < length text.now }
    ensures { (result ≡ get_or text.now at 0) × (result < 256) }
{
    usize::from(text[at])
}

fn hash(text: &[u8], at: usize, len: usize) -> usize
    requires { at + len ≤ length text.now }
    ensures { (result ≡ hash (word text.now at len)) × (result < 4096) }
{
    let name = &text[at..at + len];
    let mut h = 0;
    for b in name {
        h = (h * 31 + usize::from(*b)) % 4096;
    }
    h
}

// Whether two names of one length are the same.
pub fn same(text: &[u8], a: usize, b: usize, len: usize) -> bool
    requires { (a + len ≤ length text.now) × (b + len ≤ length text.now) }
    ensures { result ≡ same_name (word text.now a len) (word text.now b len) }
{
    text[a..a + len] == text[b..b + len]
}

// Whether the name number i of the table is the one at a place.
fn is_name(text: &[u8], starts: &[u16], lens: &[u8], i: usize, at: usize, len: usize) -> bool
    requires i_in_bounds { (i < length starts.now) × (i < length lens.now) × (at + len ≤ length text.now) }
    requires i_in_bounds_2 { get_or starts.now i 0 + get_or lens.now i 0 ≤ length text.now }
    ensures { result ≡ same_name (word text.now (get_or starts.now i 0) (get_or lens.now i 0)) (word text.now at len) }
{
    let start = get(starts, i);
    let own = byte(lens, i);
    text[start..start + own] == text[at..at + len]
}

// The number of the name at a place, where it is not new.
// The four slices are parts of one storage that is lent (symbols): a struct of `&mut` slices is no plainer, since each clause would also have to say whose they are.
fn find(
    text: &[u8],
    starts: &[u16],
    lens: &[u8],
    heads: &[u16],
    nexts: &[u16],
    n: usize,
    at: usize,
    len: usize,
) -> Option<usize>
    requires by_index { (names : List (List ℕ)) × Table text.now starts.now lens.now heads.now nexts.now names n }
    requires room { Room starts.now lens.now heads.now nexts.now n }
    requires len_in_bounds { at + len ≤ length text.now }
    ensures { (names : List (List ℕ)) → Table text.now starts.now lens.now heads.now nexts.now names n → IsPlace result (place (word text.now at len) names) n }
{
    // Counted from 1, and 0 where the chain ends: `Option<u16>` would take twice the memory, which is fixed.
    let mut e = get(heads, hash(text, at, len));
    while 0 < e {
        let i = e - 1;
        if is_name(text, starts, lens, i, at, len) {
            return Some(i);
        }
        e = get(nexts, i);
    }
    None
}

// Puts a new name behind the others.
fn add(
    starts: &mut [u16],
    lens: &mut [u8],
    heads: &mut [u16],
    nexts: &mut [u16],
    n: usize,
    at: usize,
    len: usize,
    h: usize,
)
    requires room { Room starts.old lens.old heads.old nexts.old (n + 1) }
    requires at_bound { (at < 65536) × (len < 256) × (h < 4096) }
    ensures { Put starts.old starts.new lens.old lens.new heads.old heads.new nexts.old nexts.new n at len h }
{
    starts[n] = at as u16;
    lens[n] = len as u8;
    nexts[n] = heads[h];
    heads[h] = (n + 1) as u16;
}

// The number of the name at a place; a new one is put behind the others.
pub fn number(
    text: &[u8],
    starts: &mut [u16],
    lens: &mut [u8],
    heads: &mut [u16],
    nexts: &mut [u16],
    n: usize,
    at: usize,
    len: usize,
) -> usize
    requires by_index { (names : List (List ℕ)) × Table text.now starts.old lens.old heads.old nexts.old names n }
    requires room { Room starts.old lens.old heads.old nexts.old (n + 1) }
    requires len_in_bounds { (at + len ≤ length text.now) × (at < 65536) × (len < 256) }
    ensures { (names : List (List ℕ)) → Table text.now starts.old lens.old heads.old nexts.old names n → Numbered text.now starts.new lens.new heads.new nexts.new names n (word text.now at len) result }
{
    if let Some(i) = find(text, starts, lens, heads, nexts, n, at, len) {
        return i;
    }
    let h = hash(text, at, len);
    add(starts, lens, heads, nexts, n, at, len, h);
    n
}
