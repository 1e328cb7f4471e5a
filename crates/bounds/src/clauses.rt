// What a clause's body adds to its head, told from how often variables are in the two.
ghost use Rattle.std.specs.Prelude.{◌≡◌, [], ◌∷◌, ℕ, ◌+◌, ◌≤◌, length, get_or, IfSome};
ghost use Rattle.words.specs.Word.{Fit, Fits};
ghost use Rattle.bounds.specs.Tally.{Noting, NotedOn, Took, Thrifts};

use heap::{SYMBOL, id};
use words::get;

// Of a clause, no variable of whose head is more often in the body: so many places of the body have variables that the head has not. Whether each variable of the head is as often in the body's
// first formula. And a number that all variables are below.
#[derive(Clone, Copy)]
pub struct Thrift {
    pub fresh: usize,
    pub whole: bool,
    pub names: usize,
}

// Places of the head's variables, and a number that all variables are below.
#[derive(Clone, Copy)]
pub struct Noted {
    pub places: usize,
    pub names: usize,
}

// A variable is once more in the head.
fn note_word(u: u32, counts: &mut [u16], n: Noted) -> Noted
    requires { Fit 64 u × (length counts.old ≡ 64) × (n.places ≤ 256) × ((x : ℕ) → get_or counts.old x 0 ≤ 257) }
    ensures { NotedOn u counts.old n counts.new result }
{
    if SYMBOL <= u {
        return n;
    }
    let x = id(u);
    let c = get(counts, x).max(1);
    counts[x] = (c + 1) as u16;
    Noted {
        places: n.places + 1,
        names: n.names.max(x + 1),
    }
}

// How often each variable is in the head, and one more; 0 where it is not.
fn note(head: &[u32], counts: &mut [u16]) -> Noted
    requires fits { Fits 64 head.now × (length head.now ≤ 256) }
    requires counts_len { (length counts.old ≡ 64) × ((x : ℕ) → get_or counts.old x 0 ≡ 0) }
    ensures { Noting head.now counts.new result }
{
    let mut n = Noted {
        places: 0,
        names: 0,
    };
    for &u in head {
        n = note_word(u, counts, n);
    }
    n
}

// Of some words: so many places took one of the counts, so many have variables with no count.
#[derive(Clone, Copy)]
pub struct Taken {
    pub matched: usize,
    pub fresh: usize,
    pub names: usize,
}

// None where the count of the word's variable is used up.
fn take_word(u: u32, counts: &mut [u16], t: Taken) -> Option<Taken>
    requires { Fit 64 u × (length counts.old ≡ 64) × (t.matched + t.fresh ≤ 256) }
    ensures { IfSome result (Took (u ∷ []) counts.old t counts.new) }
{
    if SYMBOL <= u {
        return Some(t);
    }
    let x = id(u);
    let names = t.names.max(x + 1);
    let c = get(counts, x);
    if c == 1 {
        return None;
    }
    if c == 0 {
        return Some(Taken {
            fresh: t.fresh + 1,
            names,
            ..t
        });
    }
    counts[x] = (c - 1) as u16;
    Some(Taken {
        matched: t.matched + 1,
        names,
        ..t
    })
}

fn take(body: &[u32], counts: &mut [u16]) -> Option<Taken>
    requires { Fits 64 body.now × (length body.now ≤ 256) × (length counts.old ≡ 64) }
    ensures { IfSome result (Took body.now counts.old (record { matched = 0; fresh = 0; names = 0 }) counts.new) }
{
    let mut t = Taken {
        matched: 0,
        fresh: 0,
        names: 0,
    };
    for &u in body {
        t = take_word(u, counts, t)?;
    }
    Some(t)
}

fn thrift_with(clause: &[u32], head: usize, first: usize, counts: &mut [u16]) -> Option<Thrift>
    requires fits { Fits 64 clause.now × (length clause.now ≤ 256) × (head ≤ first) × (first ≤ length clause.now) }
    requires counts_len { (length counts.old ≡ 64) × ((x : ℕ) → get_or counts.old x 0 ≡ 0) }
    ensures { IfSome result (Thrifts clause.now head first) }
{
    let a = note(&clause[..head], counts);
    let b = take(&clause[head..first], counts)?;
    let c = take(&clause[first..], counts)?;
    Some(Thrift {
        fresh: b.fresh + c.fresh,
        whole: b.matched == a.places,
        names: a.names.max(b.names.max(c.names)),
    })
}

// The first `head` words of the clause are its head, and the body's first formula ends at `first`. None where a variable of the head is more often in the body.
pub fn thrift_of(clause: &[u32], head: usize, first: usize) -> Option<Thrift>
    requires { Fits 64 clause.now × (length clause.now ≤ 256) × (head ≤ first) × (first ≤ length clause.now) }
    ensures { IfSome result (Thrifts clause.now head first) }
{
    let mut counts = [0u16; 64];
    thrift_with(clause, head, first, &mut counts)
}
