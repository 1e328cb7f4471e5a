// What a run answers, in words.
use crate::circle::Circle;
use crate::given::{Question, Run};
use crate::nearest::say_nearest;
use crate::out::{Hex, Steps};
use crate::text::arguments;
use crate::values::say_values;
use outcomes::Answer;
use std::io;

// What the words on the command line ask for.
#[derive(Clone, Copy)]
pub(crate) struct Wanted {
    pub(crate) budget: u32,
    pub(crate) numbers: bool,
    pub(crate) dot: bool,
}

// How a run ends: the codes of document 01.
#[derive(Clone, Copy, PartialEq, Eq)]
enum End {
    Solved,
    Circle,
    Stuck,
    Spent,
    NoRoom,
    NoRoomForAnswer,
    NoRule,
}

impl From<u8> for End {
    fn from(code: u8) -> End {
        match code {
            20 => End::Solved,
            21 => End::Circle,
            22 => End::Stuck,
            23 => End::Spent,
            24 => End::NoRoom,
            27 => End::NoRoomForAnswer,
            _ => End::NoRule,
        }
    }
}

impl Run {
    // `trace`'s five numbers, and the answer's bytes.
    fn say_numbers(&self, rt: &impl Print) -> io::Result<()> {
        let Answer {
            code,
            place,
            steps,
            span,
            bytes,
            ..
        } = self.outcome;
        println!(rt;
            "{code} {place} {steps} {span} {bytes} {}",
            Hex(&self.answer)
        )
    }

    fn circle(&self) -> Circle {
        let Answer { steps, span, .. } = self.outcome;
        Circle {
            from: steps.saturating_sub(span),
            span,
        }
    }
}

impl Question<'_> {
    pub(crate) fn answer(&self, rt: &HostRuntime, wanted: Wanted) -> io::Result<()> {
        let run = self.run(rt.alloc(), wanted.budget)?;
        if wanted.numbers {
            return run.say_numbers(rt);
        }
        match End::from(run.outcome.code) {
            End::Solved => self.say_solved(rt, &run),
            End::Circle if wanted.dot => run.circle().draw(rt, self),
            End::Circle => run.circle().say(rt, self),
            End::Stuck => self.say_stuck(rt, &run),
            End::Spent => self.say_end(
                rt,
                &run,
                "steps used up",
                "a larger number behind --budget allows more",
            ),
            End::NoRoom => self.say_end(
                rt,
                &run,
                "no room",
                "the next goal has over 512 formulas or 4,096 names and variables; the handset holds no more, so the rules have to make smaller goals",
            ),
            End::NoRoomForAnswer => self.say_end(
                rt,
                &run,
                "no room for the answer",
                "the next answer has over 4,096 names and variables; the handset holds no more, so the query has to ask for less",
            ),
            End::NoRule => self.say_unknown(rt, &run),
        }
    }

    // The query's variables, each with what the answer has in its place.
    fn say_solved(&self, rt: &HostRuntime, run: &Run) -> io::Result<()> {
        let asked = self.asked(rt.alloc())?;
        let answer = self.goal_text(rt.alloc(), &run.answer)?;
        say_values(rt, self.typed, &asked, &answer)?;
        println!(rt; "solved in {}", Steps(run.outcome.steps))
    }

    fn say_stuck(&self, rt: &HostRuntime, run: &Run) -> io::Result<()> {
        let leftmost = self.leftmost(rt.alloc(), &run.goal)?;
        let Answer {
            steps,
            furthest,
            argument,
            ..
        } = run.outcome;
        println!(rt; "stuck after {} at {leftmost}", Steps(steps))?;
        println!(rt; "furthest: {}", self.rules.rule(furthest))?;
        println!(rt; "which fails at argument {argument}")
    }

    // A run that may go on with more of what ended it.
    fn say_end(&self, rt: &HostRuntime, run: &Run, what: &str, hint: &str) -> io::Result<()> {
        let leftmost = self.leftmost(rt.alloc(), &run.goal)?;
        println!(rt; "{what} after {} at {leftmost}", Steps(run.outcome.steps))?;
        println!(rt; "{hint}")
    }

    // A predicate by its name and how many arguments it has, and the names that are nearest to it among those of the rules.
    fn say_unknown(&self, rt: &HostRuntime, run: &Run) -> io::Result<()> {
        let leftmost = self.leftmost(rt.alloc(), &run.goal)?;
        let name = leftmost.split('(').next().unwrap_or("");
        println!(rt; "no rule for {name}/{}", arguments(leftmost.as_bytes()))?;
        say_nearest(rt, &self.rules.names, name.as_bytes())
    }
}
