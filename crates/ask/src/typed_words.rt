// The words of the command line.
use crate::telling::Wanted;
use std::env::{Env, FillError};
use std::fmt;

// The longest word that a command line has.
pub(crate) const LONGEST_WORD: usize = 131_072;

// The longest path has fewer bytes.
pub(crate) const LONGEST_PATH: usize = 4_096;

// A word of the command line, which may have any bytes, and not only UTF-8 as those of `env::args`; nothing behind the last.
// One that is longer than the buffer is as an empty one.
pub(crate) fn word<'a>(rt: &impl Env, at: usize, buffer: &'a mut [u8]) -> Option<&'a [u8]> {
    match rt.arg(at, buffer) {
        Ok(length) => Some(&buffer[..length]),
        Err(FillError::NotPresent) => None,
        Err(FillError::TooLong) => Some(&[]),
    }
}

// Which word is the rules' file, which the query if it is not to be read from standard input, and what else is asked for.
#[derive(Clone, Copy)]
pub(crate) struct Command {
    pub(crate) rules: usize,
    pub(crate) query: Option<usize>,
    pub(crate) wanted: Wanted,
}

// Why there is nothing to ask.
#[derive(Clone, Copy, PartialEq, Eq)]
pub(crate) enum Unclear {
    Help,
    NoNumber,
    All,
    Unknown,
}

impl fmt::Display for Unclear {
    fn fmt<W: fmt::Write>(&self, f: &mut fmt::Formatter<W>) -> fmt::Result {
        f.write_str(match self {
            Unclear::Help => USAGE,
            Unclear::NoNumber => "--budget wants a number\n",
            Unclear::All =>
                "--all is not there yet: the search follows one path, and lists one answer\n",
            Unclear::Unknown =>
                "ask does not know what to do with these words; ask --help says what it takes\n",
        })
    }
}

const USAGE: &str = "\
ask RULES QUERY     answers one query by the rules of a file, both as text
ask RULES           answers queries from standard input, one a line
  --budget N        takes at most N steps; 10000 where it is left out
  --dot             draws a circle as a graph in DOT
  --numbers         prints code, place, steps, span, bytes and the answer's bytes
A rule is `head.` or `head :- formula, formula.`, a query `formula, formula`; names begin with a small letter, variables with a capital one.
";

// A number of 32 bits, in digits alone.
fn number(word: &[u8]) -> Option<u32> {
    if !word.iter().all(|b| b.is_ascii_digit()) {
        return None;
    }
    str::from_utf8(word).ok()?.parse().ok()
}

// What the words tell that are read so far; the words themselves are not kept, so that any number of them takes the same memory.
#[derive(Clone, Copy)]
struct Reading {
    rules: Option<usize>,
    query: Option<usize>,
    wanted: Wanted,
    // The last word was `--budget`.
    in_budget: bool,
}

impl Reading {
    fn option(&mut self, word: &[u8]) -> Result<(), Unclear> {
        match word {
            b"--budget" => self.in_budget = true,
            b"--numbers" => self.wanted.numbers = true,
            b"--dot" => self.wanted.dot = true,
            b"--help" => return Err(Unclear::Help),
            b"--all" => return Err(Unclear::All),
            _ => return Err(Unclear::Unknown),
        }
        Ok(())
    }

    fn word(&mut self, at: usize, word: &[u8]) -> Result<(), Unclear> {
        if self.in_budget {
            self.wanted.budget = number(word).ok_or(Unclear::Unknown)?;
            self.in_budget = false;
        } else if word.starts_with(b"-") {
            self.option(word)?;
        } else if self.rules.is_none() {
            self.rules = Some(at);
        } else if self.query.is_none() {
            self.query = Some(at);
        } else {
            return Err(Unclear::Unknown);
        }
        Ok(())
    }
}

impl Command {
    // The first word behind the program's name that is no option is the rules' file, the second the query. Without an option a run has 10,000 steps.
    pub(crate) fn read(rt: &impl Env) -> Result<Command, Unclear> {
        let wanted = Wanted {
            budget: 10_000,
            numbers: false,
            dot: false,
        };
        let mut reading = Reading {
            rules: None,
            query: None,
            wanted,
            in_budget: false,
        };
        // A word that is longer than any path is as an empty one here; as the query it is read anew.
        let mut buffer = [0; LONGEST_PATH];
        for at in 1..usize::MAX {
            let Some(word) = word(rt, at, &mut buffer) else {
                break;
            };
            reading.word(at, word)?;
        }
        if reading.in_budget {
            return Err(Unclear::NoNumber);
        }
        Ok(Command {
            rules: reading.rules.ok_or(Unclear::Help)?,
            query: reading.query,
            wanted: reading.wanted,
        })
    }
}
