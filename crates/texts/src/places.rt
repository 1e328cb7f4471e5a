// Where a formula stands in a text that is read (document 02, C-18: "at that formula's first byte").
ghost use Rattle.std.specs.Prelude.{◌≡◌, ◌<◌, ◌≤◌, length};
ghost use Rattle.readouts.specs.Place.{formula_place};
ghost use Rattle.texts.specs.Seek.{sign_of, here, left_after, depth_after};

use pieces::{Found, end_of, piece_at};

// What a piece is to a search for a formula.
#[derive(Clone, Copy)]
pub enum Sign {
    Name,
    Opening,
    Closing,
    Comma,
    Other,
    Nothing,
}

pub fn sign_of(found: Found) -> Sign
    ensures { result ≡ sign_of found }
{
    match found {
        Found::Name(_) => Sign::Name,
        Found::Opening => Sign::Opening,
        Found::Closing => Sign::Closing,
        Found::Comma => Sign::Comma,
        Found::HalfArrow | Found::HalfStop | Found::Nothing => Sign::Nothing,
        _ => Sign::Other,
    }
}

// Whether the search ends before this piece.
fn is_here(sign: Sign, left: usize, depth: usize) -> bool
    ensures { result ≡ here sign left depth }
{
    match sign {
        Sign::Nothing => true,
        Sign::Name => depth == 0 && left == 0,
        _ => false,
    }
}

// How many names outside brackets are to be passed behind the piece.
fn left_after(sign: Sign, left: usize, depth: usize) -> usize
    ensures { result ≡ left_after sign left depth }
{
    match sign {
        Sign::Name if depth == 0 => left.saturating_sub(1),
        _ => left,
    }
}

// How many brackets are open behind the piece.
pub fn depth_after(sign: Sign, depth: usize) -> usize
    requires { depth < 65536 }
    ensures { result ≡ depth_after sign depth }
{
    match sign {
        Sign::Opening => depth + 1,
        Sign::Closing => depth.saturating_sub(1),
        _ => depth,
    }
}

// The first byte of the formula that has k formulas before it.
pub fn formula_place(text: &[u8], k: usize) -> usize
    requires { length text.now ≤ 65536 }
    ensures { (result ≡ formula_place text.now k) × (result ≤ 65536) }
{
    let mut left = k;
    let mut depth = 0;
    let mut at = 0;
    while at < text.len() {
        let found = piece_at(text, at);
        let s = sign_of(found);
        if is_here(s, left, depth) {
            return at;
        }
        left = left_after(s, left, depth);
        depth = depth_after(s, depth);
        at = end_of(found, at);
    }
    at
}
