// `ask RULES QUERY`: rules and a question as text, and what the engine answers, in words. Everything that decides stands on proved entries: the texts are
// read, run and printed by them.
#![tactic(auto)]

mod circle;
mod given;
mod names;
mod nearest;
mod out;
mod refusal;
mod telling;
mod text;
mod typed_words;
mod values;

use crate::given::{LONGEST_TEXT, Question, Rules};
use crate::telling::Wanted;
use crate::typed_words::{Command, LONGEST_PATH, LONGEST_WORD, word};
use std::alloc::AllocError;
use std::fs::File;
use std::io;
use std::io::{BufRead, IsTerminal, Read};

fn ask(rt: &HostRuntime, rules: &Rules, typed: &[u8], wanted: Wanted) -> io::Result<()> {
    match Question::read(rt.alloc(), rules, typed) {
        Ok(question) => question.answer(rt, wanted),
        Err(fault) => fault.say(rt),
    }
}

// Puts the next line of standard input in the place of the one before, and says whether the input ended with it.
// A line that is longer than a text may be goes on in the next. A read that fails ends the input; there is room for a line, and no memory is asked for while it is read.
fn read_line(input: &mut impl BufRead, line: &mut Vec<u8>) -> bool {
    line.clear();
    let _ = input.take(LONGEST_TEXT as u64).read_until(b'\n', line);
    let is_whole = line.last() == Some(&b'\n');
    if is_whole {
        line.pop();
    }
    !is_whole && line.len() < LONGEST_TEXT
}

fn ask_lines(rt: &HostRuntime, rules: &Rules, wanted: Wanted) -> io::Result<()> {
    let mut input = rt.reader();
    let mut line = Vec::with_capacity(rt.alloc(), LONGEST_TEXT)?;
    for _ in 0..u32::MAX {
        if rt.stdin().is_terminal() {
            print!(rt; "?- ")?;
        }
        let is_last = read_line(&mut input, &mut line);
        if !line.is_empty() {
            ask(rt, rules, &line, wanted)?;
        }
        if is_last {
            break;
        }
    }
    Ok(())
}

// Not inlined, so that its area is there for a query of the command line alone.
#[inline(never)]
fn ask_word(rt: &HostRuntime, rules: &Rules, at: usize, wanted: Wanted) -> io::Result<()> {
    let mut area = [0; LONGEST_WORD];
    let query = word(rt, at, &mut area).unwrap_or(&[]);
    ask(rt, rules, query, wanted)
}

// As much of a file as a text may have, and a byte more, so that a longer one is seen to be; nothing where it can't be opened. The library opens only paths that are UTF-8.
// A read that fails ends the text; no memory is asked for while it is read.
fn read_file(rt: &HostRuntime, path: &[u8]) -> Result<Option<Vec<u8>>, AllocError> {
    let mut text = Vec::with_capacity(rt.alloc(), LONGEST_TEXT + 1)?;
    let Ok(name) = str::from_utf8(path) else {
        return Ok(None);
    };
    let Ok(file) = File::open(rt, name) else {
        return Ok(None);
    };
    let _ = file.take(LONGEST_TEXT as u64 + 1).read_to_end(&mut text);
    Ok(Some(text))
}

fn run(rt: &HostRuntime, command: Command) -> io::Result<()> {
    let mut area = [0; LONGEST_PATH];
    let path = word(rt, command.rules, &mut area).unwrap_or(&[]);
    let Some(text) = read_file(rt, path)? else {
        print!(rt; "there is no file ")?;
        rt.write_all(path)?;
        return println!(rt; " to read rules from");
    };
    let rules = match Rules::read(rt.alloc(), &text) {
        Ok(rules) => rules,
        Err(fault) => return fault.say(rt),
    };
    match command.query {
        Some(at) => ask_word(rt, &rules, at, command.wanted),
        None => ask_lines(rt, &rules, command.wanted),
    }
}

fn main(rt: HostRuntime) -> io::Result<()> {
    match Command::read(&rt) {
        Ok(command) => run(&rt, command),
        Err(unclear) => print!(rt; "{unclear}"),
    }
}
