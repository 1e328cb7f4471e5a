// Each variable of a query with its value. The query and its answer as they are printed differ only where the query has a variable, `V` and its
// number, and the answer has what it stands for; the variables of the query as it was typed come in the same order.
ghost use Rattle.std.specs.Prelude.{length};
ghost use Rattle.std.specs.Iterator.{at_most};

use crate::text::{in_word, split_line, split_term, split_word};
use std::io;

// The first variable of a text that was typed, and what is behind it.
fn split_variable(text: &[u8]) -> (&[u8], &[u8]) {
    let mut rest = text;
    while let Some((first, behind)) = rest.split_first() {
        rest = match *first {
            b'A'..=b'Z' | b'_' => break,
            b'%' => split_line(behind).1,
            b if in_word(b) => split_word(behind).1,
            _ => behind,
        };
    }
    split_word(rest)
}

fn number(digits: &[u8]) -> Option<u32> {
    str::from_utf8(digits).ok()?.parse().ok()
}

// What is left of the three texts, the byte before what is left of the query, and how many variables were met.
#[derive(Clone, Copy)]
struct Walk<'a> {
    typed: &'a [u8],
    asked: &'a [u8],
    answer: &'a [u8],
    last: u8,
    met: u32,
}

impl<'a> Walk<'a> {
    // The name and the value of the variable that the walk stands at, if it was not met before. Variables are numbered by first appearance, so that one met
    // first has the number of those met before.
    fn variable(&mut self, digits: &[u8]) -> Option<(&'a [u8], &'a [u8])> {
        let (name, typed) = split_variable(self.typed);
        let (value, answer) = split_term(self.answer);
        self.typed = typed;
        self.answer = answer;
        if number(digits) != Some(self.met) {
            return None;
        }
        self.met = self.met.saturating_add(1);
        Some((name, value))
    }
}

impl<'a> Iterator for Walk<'a> {
    // A name and its value, where the walk comes to one.
    type Item = Option<(&'a [u8], &'a [u8])>;

    ghost remaining = { λ s. at_most (length s.asked.now) };

    fn next(&mut self) -> Option<Option<(&'a [u8], &'a [u8])>> {
        let (first, rest) = self.asked.split_first()?;
        // In what is printed a variable is an argument, and so stands behind a bracket or a comma.
        let is_variable = *first == b'V' && matches!(self.last, b'(' | b',');
        self.last = *first;
        if is_variable {
            let (digits, rest) = split_word(rest);
            let value = self.variable(digits);
            self.asked = rest;
            return Some(value);
        }
        self.asked = rest;
        self.answer = self.answer.get(1..).unwrap_or(&[]);
        Some(None)
    }
}

pub(crate) fn say_values(
    rt: &impl Print,
    typed: &[u8],
    asked: &[u8],
    answer: &[u8],
) -> io::Result<()> {
    let walk = Walk {
        typed,
        asked,
        answer,
        last: 0,
        met: 0,
    };
    for (name, value) in walk.flatten() {
        // "each lone `_` a new variable": its value was not asked for.
        if name != b"_".as_slice() {
            rt.write_all(name)?;
            print!(rt; " = ")?;
            rt.write_all(value)?;
            println!(rt)?;
        }
    }
    Ok(())
}
