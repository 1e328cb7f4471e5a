// The states of the search: open, or closed with what is answered; the first two tests of document 01, "Detection states".
#![tactic(auto)]

ghost use Rattle.std.specs.Prelude.{◌≡◌};
ghost use Rattle.states.specs.Codes.{number};
ghost use Rattle.states.specs.States.{Somewhere, Looked};

use crate::closing::close;
use crate::leftmost::same_front;
use detector::{Detector, Judged};
use picking::extent;

pub mod leftmost; // the leftmost formula and the saved one
pub mod closing; // how a state closes the run

// The open state of the search: its detector, how many words and formulas its goal has, how many words the answer behind it has, how many the
// saved formula (none: 0), and how many the leftmost formula.
#[derive(Clone, Copy)]
pub struct Place {
    pub detector: Detector,
    pub words: usize,
    pub formulas: usize,
    pub answer: usize,
    pub kept: usize,
    pub front: usize,
}

// Why the search closes.
#[derive(Clone, Copy)]
pub enum Code {
    Solved, // the goal is empty
    Loop, // the leftmost formula is the saved one, and the goal no shorter
    Stuck, // no head unifies
    Spent, // the steps are used up
    TooBig, // the next goal is too big
    Unknown, // no clause has the predicate in its head
    AnswerTooBig, // the next answer is too big
}

// The number of a code (document 01, "Codes"; document 02, C-11 and C-19).
impl From<Code> for u8 {
    ghost from_gives = { λ code n. n ≡ number code };

    fn from(code: Code) -> u8 {
        match code {
            Code::Solved => 20,
            Code::Loop => 21,
            Code::Stuck => 22,
            Code::Spent => 23,
            Code::TooBig => 24,
            Code::Unknown => 26,
            Code::AnswerTooBig => 27,
        }
    }
}

// How the search closes: the goal is the first `words` words, and the answer the `answer` words behind them (document 02, C-11). "With every
// code but 22" the clause that got furthest and its argument are 0 (C-19).
#[derive(Clone, Copy)]
pub struct Ended {
    pub code: u8,
    pub steps: u32,
    pub span: u32,
    pub words: usize,
    pub formulas: usize,
    pub answer: usize,
    pub clause: usize,
    pub argument: usize,
}

// Whether the state is open still, or how it closes, by the first two tests of a state: "G empty, 20; A present, length of G at least l, and leftmost formula equal to A up
// to renaming, 21". Goals are numbered by first appearance, so that "up to renaming" is "equal". "The loop test looks at the goal alone."
pub fn look(
    goal: &[u32],
    words: usize,
    formulas: usize,
    answer: usize,
    saved: &[u32],
    kept: usize,
    detector: Detector,
) -> Result<Place, Ended>
    requires { Somewhere goal.now saved.now detector words formulas answer kept }
    ensures { Looked goal.now saved.now detector words formulas answer kept result }
{
    if formulas == 0 {
        return Err(close(u8::from(Code::Solved), detector, 0, words, formulas, answer));
    }
    let front = extent(&goal[..words]);
    let same = same_front(goal, front, saved, kept);
    let Judged { detector, span } = detector.judge(formulas as u32, same);
    match span {
        Some(span) => Err(close(
            u8::from(Code::Loop),
            detector,
            span,
            words,
            formulas,
            answer,
        )),
        None => Ok(Place {
            detector,
            words,
            formulas,
            answer,
            kept,
            front,
        }),
    }
}
