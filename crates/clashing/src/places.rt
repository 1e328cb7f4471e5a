// Where a formula of a query stands in its text (document 02, C-18: "at that formula's first byte").
ghost use Rattle.std.specs.Prelude.{◌≡◌, ◌+◌, ◌<◌, ◌≤◌, length};
ghost use Rattle.questions.specs.Outcome.{formula_at};
ghost use Rattle.clashing.specs.Seek.{here, outside_after};

use pieces::{end_of, piece_at};
use texts::places::{Sign, depth_after, sign_of};

// Whether the search for the formula behind k commas ends before this piece. By commas, as `formula_at` (questions) counts; the search in rules (texts, places)
// counts names, as `formula_place` (readouts) does, since a rule has no comma behind its head.
fn is_here(sign: Sign, outside: usize, depth: usize, k: usize) -> bool
    ensures { result ≡ here sign outside depth k }
{
    match sign {
        Sign::Nothing => true,
        Sign::Name => depth == 0 && outside == k,
        _ => false,
    }
}

// How many commas stand outside all brackets behind the piece.
fn outside_after(sign: Sign, outside: usize, depth: usize) -> usize
    requires { outside < 65536 }
    ensures { result ≡ outside_after sign outside depth }
{
    match sign {
        Sign::Comma if depth == 0 => outside + 1,
        _ => outside,
    }
}

// The first byte of the formula that has k formulas before it.
pub fn formula_at(text: &[u8], k: usize) -> usize
    requires { length text.now ≤ 65536 }
    ensures { (result ≡ formula_at text.now k) × (result ≤ 65536) }
{
    let mut outside = 0;
    let mut depth = 0;
    let mut at = 0;
    while at < text.len() {
        let found = piece_at(text, at);
        let s = sign_of(found);
        if is_here(s, outside, depth, k) {
            return at;
        }
        outside = outside_after(s, outside, depth);
        depth = depth_after(s, depth);
        at = end_of(found, at);
    }
    at
}
