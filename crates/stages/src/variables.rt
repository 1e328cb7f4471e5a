// The variables of a rule, by first appearance: "each lone `_` a new variable".
ghost use Rattle.std.specs.Prelude.{◌≡◌, List, ℕ, ◌+◌, ◌<◌, ◌≤◌, length, get_or};
ghost use Rattle.grammar.specs.Names.{same_name, place, lone, variable_number, with_variable};
ghost use Rattle.nametable.specs.Table.{word, IsPlace};
ghost use Rattle.stages.specs.Variables.{Variables};

use nametable::same;
use words::get;

fn lone(text: &[u8], at: usize, len: usize) -> bool
    requires { at + len ≤ length text.now }
    ensures { result ≡ lone (word text.now at len) }
{
    len == 1 && text[at] == b'_'
}

// Whether the variable number i is the one at a place.
fn is_variable(text: &[u8], vars: &[u16], i: usize, at: usize, len: usize) -> bool
    requires { (64 + i < length vars.now) × (at + len ≤ length text.now) × (get_or vars.now i 0 + (get_or vars.now (64 + i) 0 + 1) ≤ length text.now) }
    ensures { result ≡ same_name (word text.now at len) (word text.now (get_or vars.now i 0) (get_or vars.now (64 + i) 0 + 1)) }
{
    get(vars, 64 + i) + 1 == len && same(text, at, get(vars, i), len)
}

// The number of the variable at a place, where it stands before.
fn find(text: &[u8], vars: &[u16], n: usize, at: usize, len: usize) -> Option<usize>
    requires { ((names : List (List ℕ)) × Variables text.now vars.now names n) × (128 ≤ length vars.now) × (at + len ≤ length text.now) }
    ensures { (names : List (List ℕ)) → Variables text.now vars.now names n → IsPlace result (place (word text.now at len) names) n }
{
    for i in 0..n {
        if is_variable(text, vars, i, at, len) {
            return Some(i);
        }
    }
    None
}

// The number of the variable at a place: a new one, and each lone `_`, is numbered behind the others.
pub fn number(text: &[u8], vars: &[u16], n: usize, at: usize, len: usize) -> usize
    requires { ((names : List (List ℕ)) × Variables text.now vars.now names n) × (128 ≤ length vars.now) × (at + len ≤ length text.now) }
    ensures { (names : List (List ℕ)) → Variables text.now vars.now names n → result ≡ variable_number names (word text.now at len) }
{
    if lone(text, at, len) {
        return n;
    }
    find(text, vars, n, at, len).unwrap_or(n)
}

// Puts a new variable behind the others; how many there are then.
pub fn keep(vars: &mut [u16], n: usize, v: usize, at: usize, len: usize) -> usize
    requires { (n ≤ 64) × (v < 64) × (v ≤ n) × (at < 65536) × (0 < len) × (len ≤ 65536) × (length vars.old ≡ 128) }
    ensures { (text : List ℕ) (names : List (List ℕ)) → Variables text vars.old names n → v ≡ variable_number names (word text at len) → at + len ≤ length text → Variables text vars.new (with_variable names (word text at len)) result }
{
    if v < n {
        return n;
    }
    vars[n] = at as u16;
    vars[64 + n] = (len - 1) as u16;
    n + 1
}
