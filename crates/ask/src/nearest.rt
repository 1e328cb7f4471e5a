// The predicates of the rules whose names are nearest to one that has no rule.
use crate::names::{Entries, PREDICATE};
use std::io;

// What is left of the longer name where the same beginning and the same end are taken away: a letter that is missing, added or changed is 1, and two letters
// that changed places are 2.
fn distance(a: &[u8], b: &[u8]) -> usize {
    let front = a.iter().zip(b).take_while(|(x, y)| x == y).count();
    let behind_a = a.iter().skip(front).rev();
    let behind_b = b.iter().skip(front).rev();
    let back = behind_a.zip(behind_b).take_while(|(x, y)| x == y).count();
    a.len()
        .max(b.len())
        .saturating_sub(front)
        .saturating_sub(back)
}

// How far an entry of a name list is from a word, if it is a predicate and not the word itself.
fn reach(word: &[u8], (kind, name): (u8, &[u8])) -> Option<usize> {
    if kind != PREDICATE || name == word {
        return None;
    }
    Some(distance(word, name))
}

// The names that are nearest, if any has a letter of the word's in its place.
pub(crate) fn say_nearest(rt: &impl Print, names: &[u8], word: &[u8]) -> io::Result<()> {
    let least = Entries(names).filter_map(|entry| reach(word, entry)).min();
    let Some(least) = least else {
        return Ok(());
    };
    if word.len() <= least {
        return Ok(());
    }
    print!(rt; "nearest:")?;
    for entry in Entries(names) {
        if reach(word, entry) == Some(least) {
            print!(rt; " ")?;
            rt.write_all(entry.1)?;
        }
    }
    println!(rt)
}
