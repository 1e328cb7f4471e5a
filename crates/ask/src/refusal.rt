// Rules or a query that are refused: where, the line itself with a mark under the place, and what was expected.
use crate::text::{in_word, last_line, open_brackets, split_line};
use std::alloc::AllocError;
use std::{fmt, io};

// What a text was to be read as.
#[derive(Clone, Copy, PartialEq, Eq)]
pub(crate) enum Kind {
    Rules,
    Query,
}

impl fmt::Display for Kind {
    fn fmt<W: fmt::Write>(&self, f: &mut fmt::Formatter<W>) -> fmt::Result {
        f.write_str(match self {
            Kind::Rules => "rules",
            Kind::Query => "query",
        })
    }
}

// Why a text is not read: the codes of document 02, C-13.
#[derive(Clone, Copy, PartialEq, Eq)]
pub(crate) enum Reason {
    RuleParts,
    RulesSize,
    RuleArity,
    QueryParts,
    QuerySize,
    QueryArity,
    TextLength,
    Unexpected,
    NameLength,
    NoRoom,
}

impl From<u8> for Reason {
    fn from(code: u8) -> Reason {
        match code {
            4 => Reason::RuleParts,
            5 => Reason::RulesSize,
            7 => Reason::RuleArity,
            14 => Reason::QueryParts,
            15 => Reason::QuerySize,
            17 => Reason::QueryArity,
            40 => Reason::TextLength,
            41 => Reason::Unexpected,
            42 => Reason::NameLength,
            _ => Reason::NoRoom,
        }
    }
}

impl fmt::Display for Reason {
    fn fmt<W: fmt::Write>(&self, f: &mut fmt::Formatter<W>) -> fmt::Result {
        f.write_str(match self {
            Reason::RuleParts => {
                "one too many: a formula or term has at most 8 arguments, a rule at most 16 formulas behind `:-`"
            }
            Reason::RulesSize => {
                "too large: at most 512 rules and 32,768 bytes, a rule at most 256 names and variables, 64 of them different variables"
            }
            Reason::RuleArity => "this predicate was used before with another number of arguments",
            Reason::QueryParts => {
                "one too many: a formula or term has at most 8 arguments, a query at most 512 formulas"
            }
            Reason::QuerySize => "too large: a query has at most 4,096 names and variables",
            Reason::QueryArity => {
                "this predicate has another number of arguments in the rules, or before in the query"
            }
            Reason::TextLength => "too long: a text has at most 65,536 bytes",
            Reason::Unexpected => "unexpected here",
            Reason::NameLength => "a name has at most 32 bytes",
            Reason::NoRoom => "no room for what was read",
        })
    }
}

impl Reason {
    fn has_place(self) -> bool {
        !matches!(self, Reason::TextLength | Reason::NoRoom)
    }
}

// A text that is not read, and from where on.
#[derive(Clone, Copy)]
pub(crate) struct Refusal<'a> {
    pub(crate) kind: Kind,
    pub(crate) text: &'a [u8],
    pub(crate) reason: Reason,
    pub(crate) place: usize,
}

impl Refusal<'_> {
    pub(crate) fn say(&self, rt: &impl Print) -> io::Result<()> {
        let Refusal {
            kind,
            text,
            reason,
            place,
        } = *self;
        if !reason.has_place() {
            return println!(rt; "{kind}: {reason}");
        }
        let (before, _) = text.split_at(text.len().min(place));
        let front = last_line(before);
        let line = before.iter().filter(|b| **b == b'\n').count();
        println!(rt;
            "{kind}, line {}, column {}: {reason}",
            line.wrapping_add(1),
            front.len().wrapping_add(1)
        )?;
        show_line(rt, text, before.len().saturating_sub(front.len()), front)?;
        if reason == Reason::Unexpected {
            println!(rt; "{}", Expected { kind, before })?;
        }
        Ok(())
    }
}

// A line, and a mark behind its front: under that blanks, or a tab where the line has one.
fn show_line(rt: &impl Print, text: &[u8], start: usize, front: &[u8]) -> io::Result<()> {
    let behind = text.get(start..).unwrap_or(front);
    rt.write_all(split_line(behind).0)?;
    println!(rt)?;
    for b in front {
        print!(rt; "{}", if *b == b'\t' { '\t' } else { ' ' })?;
    }
    println!(rt; "^")
}

// What the grammar lets follow, as far as the last byte and the open brackets tell.
#[derive(Clone, Copy)]
struct Expected<'a> {
    kind: Kind,
    before: &'a [u8],
}

impl Expected<'_> {
    // Behind a formula of a query stands no `:-`, and the full stop may be left out.
    fn behind_term(&self) -> &'static str {
        match self.kind {
            _ if 0 < open_brackets(self.before) => "a comma or a closing bracket",
            Kind::Rules => "`:-`, a comma or a full stop",
            Kind::Query => "a comma or the query's end",
        }
    }
}

impl fmt::Display for Expected<'_> {
    fn fmt<W: fmt::Write>(&self, f: &mut fmt::Formatter<W>) -> fmt::Result {
        f.write_str("expected ")?;
        match self.before.iter().rev().find(|b| b' ' < **b) {
            Some(b) if in_word(*b) => write!(
                f,
                "{} or, straight behind a name, an opening bracket",
                self.behind_term()
            ),
            Some(b')') => f.write_str(self.behind_term()),
            _ if 0 < open_brackets(self.before) => f.write_str("a name or a variable"),
            Some(b'.') if self.kind == Kind::Query => f.write_str("nothing behind the full stop"),
            _ => f.write_str("a name that begins with a small letter"),
        }
    }
}

// Why there is no answer.
#[derive(Drop)]
pub(crate) enum Fault<'a> {
    Refused(Refusal<'a>),
    Failed(io::Error),
}

impl From<AllocError> for Fault<'_> {
    fn from(e: AllocError) -> Self {
        Fault::Failed(io::Error::from(e))
    }
}

impl Fault<'_> {
    // A refusal is told to whoever typed the text, and is no failure of the program.
    pub(crate) fn say(self, rt: &impl Print) -> io::Result<()> {
        match self {
            Fault::Refused(refusal) => refusal.say(rt),
            Fault::Failed(e) => Err(e),
        }
    }
}
