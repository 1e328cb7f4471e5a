// What is given: the rules and a query, read from their texts, and what a run makes of them.
use crate::refusal::{Fault, Kind, Reason, Refusal};
use crate::text::split_term;
use outcomes::Answer;
use picker::pick;
use printer::{print_book, print_goal};
use printouts::Printout;
use queries::read_query;
use running::run;
use std::alloc::{AllocError, Global};
use texts::read_text;

// The longest text that is read, and the room for one that is printed.
pub(crate) const LONGEST_TEXT: usize = 65_536;

const LONGEST_BOOK: usize = 32_768;

// "at least 16,387 bytes"
const LONGEST_GOAL: usize = 16_387;

// The longest name list of a text of 65,536 bytes has fewer bytes: a name of n bytes takes n + 1 of the text and n + 4 of the list, and a book has room for 10,922 names.
const RULES_NAMES: usize = 131_072;

// A query brings at most 4,096 names more, and as many bytes of them as its text has, at most 65,536.
const QUERY_NAMES: usize = 212_992;

// What an entry filled of an area that was lent to it. Areas lie on the stack and only this is kept: to take large vectors for each query and give them back
// costs more than to answer it. A function that has an area is not inlined, so that the area is gone when it returns.
fn filled(alloc: Global, area: &[u8], bytes: usize) -> Result<Vec<u8>, AllocError> {
    Vec::from_slice(alloc, area.get(..bytes).unwrap_or(area))
}

// What is printed, or nothing where there is no room for it.
#[inline(never)]
fn printed<F: FnOnce(&mut [u8]) -> Printout>(alloc: Global, print: F) -> Result<Vec<u8>, AllocError>
    requires { F.IsAlwaysCallable print }
{
    let mut area = [0; LONGEST_TEXT];
    let printout = print(&mut area);
    filled(alloc, &area, printout.bytes)
}

// The book of the rules' text, and the names in it.
#[inline(never)]
fn read_book(alloc: Global, text: &[u8]) -> Result<(Vec<u8>, Vec<u8>), Fault<'_>> {
    let mut book = [0; LONGEST_BOOK];
    let mut names = [0; RULES_NAMES];
    let read = read_text(text, &mut book, &mut names);
    if read.code != 0 {
        return Err(Fault::Refused(Refusal {
            kind: Kind::Rules,
            text,
            reason: Reason::from(read.code),
            place: read.place as usize,
        }));
    }
    let book = filled(alloc, &book, read.book as usize)?;
    let names = filled(alloc, &names, read.names as usize)?;
    Ok((book, names))
}

// The rules as a book, the names in it, and the book as it is printed: a clause a line.
#[derive(Drop)]
pub(crate) struct Rules {
    book: Vec<u8>,
    pub(crate) names: Vec<u8>,
    lines: String,
}

impl Rules {
    pub(crate) fn read(alloc: Global, text: &[u8]) -> Result<Rules, Fault<'_>> {
        let (book, names) = read_book(alloc, text)?;
        let lines = printed(alloc, |area| print_book(&book, &names, area))?;
        let lines = String::from_utf8_lossy(alloc, &lines)?;
        Ok(Rules { book, names, lines })
    }

    pub(crate) fn rule(&self, clause: u32) -> &str {
        self.lines.lines().nth(clause as usize).unwrap_or("")
    }
}

// A query as it was typed and as a goal of these rules, with the names of both.
#[derive(Drop)]
pub(crate) struct Question<'a> {
    pub(crate) rules: &'a Rules,
    pub(crate) typed: &'a [u8],
    query: Vec<u8>,
    names: Vec<u8>,
}

// What a run answers, and the goal and the answer that it leaves.
#[derive(Drop)]
pub(crate) struct Run {
    pub(crate) outcome: Answer,
    pub(crate) goal: Vec<u8>,
    pub(crate) answer: Vec<u8>,
}

impl<'a> Question<'a> {
    #[inline(never)]
    pub(crate) fn read(
        alloc: Global,
        rules: &'a Rules,
        typed: &'a [u8],
    ) -> Result<Question<'a>, Fault<'a>> {
        let mut query = [0; LONGEST_GOAL];
        let mut names = [0; QUERY_NAMES];
        let read = read_query(typed, &rules.book, &rules.names, &mut query, &mut names);
        if read.code != 0 {
            return Err(Fault::Refused(Refusal {
                kind: Kind::Query,
                text: typed,
                reason: Reason::from(read.code),
                place: read.place as usize,
            }));
        }
        Ok(Question {
            rules,
            typed,
            query: filled(alloc, &query, read.query as usize)?,
            names: filled(alloc, &names, read.names as usize)?,
        })
    }

    #[inline(never)]
    pub(crate) fn run(&self, alloc: Global, budget: u32) -> Result<Run, AllocError> {
        let mut goal = [0; LONGEST_GOAL];
        let mut answer = [0; LONGEST_GOAL];
        let outcome = run(
            &self.rules.book,
            &self.query,
            budget,
            &mut goal,
            &mut answer,
        );
        Ok(Run {
            outcome,
            goal: filled(alloc, &goal, outcome.bytes as usize)?,
            answer: filled(alloc, &answer, outcome.answer as usize)?,
        })
    }

    // The query as it is printed.
    pub(crate) fn asked(&self, alloc: Global) -> Result<Vec<u8>, AllocError> {
        self.goal_text(alloc, &self.query)
    }

    pub(crate) fn goal_text(&self, alloc: Global, goal: &[u8]) -> Result<Vec<u8>, AllocError> {
        printed(
            alloc,
            |area| print_goal(&self.rules.book, goal, &self.names, area),
        )
    }

    // The leftmost formula of a goal.
    pub(crate) fn leftmost(&self, alloc: Global, goal: &[u8]) -> Result<String, AllocError> {
        let text = self.goal_text(alloc, goal)?;
        let (formula, _) = split_term(&text);
        String::from_utf8_lossy(alloc, formula)
    }

    // The rule that a step uses on a goal.
    pub(crate) fn next_rule(&self, goal: &[u8]) -> &str {
        self.rules.rule(pick(&self.rules.book, goal).clause)
    }
}
