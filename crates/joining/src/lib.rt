// Classes joined, and all that follows: a pair once joined is never visited again (document 02, C-15), for each join makes one root fewer.
#![tactic(auto)]

ghost use Rattle.std.specs.Prelude.{◌≡◌, [], ◌∷◌, ◌<◌, ◌≤◌, length, get_or};
ghost use Rattle.words.specs.Word.{arity_of};
ghost use Rattle.words.specs.Columns.{ROWS, column, Only, UP, PICK, LEFT, RIGHT};
ghost use Rattle.positions.specs.Words.{Ends};
ghost use Rattle.positions.specs.Classes.{root, Down};
ghost use Rattle.positions.specs.Steps.{Flat, Ready, Args, Outcome};
ghost use Rattle.positions.specs.Closing.{Closing};
ghost use Rattle.positions.specs.Tables.{ends, ups, picks, state_in, ClosedIn};

use words::rows::{CELLS, END, LEFT, PICK, RIGHT, UP, cell, put};
use words::{arity, word};

// The root of a position's class, of n positions; the way to it is halved.
fn seek(rows: &mut [u16; CELLS], n: usize, start: usize) -> usize
    requires { (n ≤ ROWS) × (start < n) × Down (column UP n rows.old) }
    ensures { (result ≡ root (column UP n rows.old) start) × Flat (column UP n rows.old) (column UP n rows.new) × Only (UP ∷ []) rows.old rows.new }
{
    let mut p = start;
    let mut q = cell(rows, UP, p);
    while q < p {
        let g = cell(rows, UP, q);
        put(rows, UP, p, g);
        p = g;
        q = cell(rows, UP, p);
    }
    p
}

// Each of n positions points to its root, so that the search for cycles finds it at once.
pub fn flatten(rows: &mut [u16; CELLS], n: usize)
    requires { (n ≤ ROWS) × Down (column UP n rows.old) }
    ensures { Flat (column UP n rows.old) (column UP n rows.new) × Only (UP ∷ []) rows.old rows.new }
{
    for p in 0..n {
        let q = cell(rows, UP, p);
        let g = cell(rows, UP, q);
        put(rows, UP, p, g);
    }
}

// Two roots become one, the smaller. A class keeps a position that is no variable's where it has one; where both have, they are a pair to be spread.
fn link(words: &[u32], rows: &mut [u16; CELLS], tail: usize, a: usize, b: usize) -> Option<usize>
    requires { Ready words.now (state_in words.now rows.old tail) × (a < b) × (b < length words.now) × (get_or (ups words.now rows.old) a 0 ≡ a) × (get_or (ups words.now rows.old) b 0 ≡ b) }
    ensures { Outcome words.now (state_in words.now rows.old tail) (λ f. f a ≡ f b) (state_in words.now rows.new) result × Only (UP ∷ PICK ∷ LEFT ∷ RIGHT ∷ []) rows.old rows.new }
{
    let x = cell(rows, PICK, a);
    let y = cell(rows, PICK, b);
    let u = word(words, x);
    let v = word(words, y);
    put(rows, UP, b, a);
    let ku = u / 16777216;
    let kv = v / 16777216;
    if kv == 1 {
        return Some(tail);
    }
    if ku == 1 {
        put(rows, PICK, a, y);
        return Some(tail);
    }
    if u == v {
        put(rows, LEFT, tail, x);
        put(rows, RIGHT, tail, y);
        return Some(tail + 1);
    }
    None
}

// The classes of two positions become one; the number of pairs that wait; none where two words differ.
fn join(words: &[u32], rows: &mut [u16; CELLS], tail: usize, p: usize, q: usize) -> Option<usize>
    requires { Ready words.now (state_in words.now rows.old tail) × (p < length words.now) × (q < length words.now) }
    ensures { Outcome words.now (state_in words.now rows.old tail) (λ f. f p ≡ f q) (state_in words.now rows.new) result × Only (UP ∷ PICK ∷ LEFT ∷ RIGHT ∷ []) rows.old rows.new }
{
    let n = words.len();
    let a = seek(rows, n, p);
    let b = seek(rows, n, q);
    if a < b {
        return link(words, rows, tail, a, b);
    }
    if b < a {
        return link(words, rows, tail, b, a);
    }
    Some(tail)
}

// The arguments at x and y are joined one by one.
fn spread(words: &[u32], rows: &mut [u16; CELLS], tail: usize, x: usize, y: usize) -> Option<usize>
    requires { Ready words.now (state_in words.now rows.old tail) × Ends words.now (ends words.now rows.old) × (x < length words.now) × (y < length words.now) × (get_or words.now x 0 ≡ get_or words.now y 0) }
    ensures { Outcome words.now (state_in words.now rows.old tail) (λ f. Args f (ends words.now rows.old) (arity_of (get_or words.now x 0)) x y) (state_in words.now rows.new) result × Only (UP ∷ PICK ∷ LEFT ∷ RIGHT ∷ []) rows.old rows.new }
{
    let k = arity(word(words, x));
    let mut t = tail;
    let mut c = x + 1;
    let mut d = y + 1;
    for i in 0..k {
        t = join(words, rows, t, c, d)?;
        c = cell(rows, END, c);
        d = cell(rows, END, d);
    }
    Some(t)
}

// All that follows from the equality of the terms at x and y.
pub fn close(words: &[u32], rows: &mut [u16; CELLS], x: usize, y: usize) -> bool
    requires { ClosedIn words.now rows.old × (x < length words.now) × (y < length words.now) }
    ensures { Closing words.now (ends words.now rows.old) (ups words.now rows.old) x y (ups words.now rows.new) (picks words.now rows.new) result × Only (UP ∷ PICK ∷ LEFT ∷ RIGHT ∷ []) rows.old rows.new }
{
    let Some(mut tail) = join(words, rows, 0, x, y) else {
        return false;
    };
    let mut head = 0;
    while head < tail {
        let a = cell(rows, LEFT, head);
        let b = cell(rows, RIGHT, head);
        let Some(pairs) = spread(words, rows, tail, a, b) else {
            return false;
        };
        tail = pairs;
        head += 1;
    }
    true
}
