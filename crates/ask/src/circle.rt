// A circle (code 21): one turn of it, each goal's leftmost formula with the rule that is used on it.
use crate::given::Question;
use crate::out::Steps;
use std::io;

// The step at which the circle is entered, and how many steps it has.
#[derive(Clone, Copy)]
pub(crate) struct Circle {
    pub(crate) from: u32,
    pub(crate) span: u32,
}

impl Circle {
    pub(crate) fn say(self, rt: &HostRuntime, question: &Question<'_>) -> io::Result<()> {
        let Circle { from, span } = self;
        println!(rt;
            "loop: the goal of step {from} is in a circle of {}, and the search would never end",
            Steps(span)
        )?;
        for at in 0..span {
            let step = from.wrapping_add(at);
            let goal = question.run(rt.alloc(), step)?.goal;
            let leftmost = question.leftmost(rt.alloc(), &goal)?;
            println!(rt;
                "step {step}: {leftmost}\n  by {}",
                question.next_rule(&goal)
            )?;
        }
        Ok(())
    }

    // The same as a graph in DOT.
    pub(crate) fn draw(self, rt: &HostRuntime, question: &Question<'_>) -> io::Result<()> {
        let Circle { from, span } = self;
        println!(rt; "digraph circle {{")?;
        for at in 0..span {
            // "run the same query with budget k, and read the goal that is left"
            let goal = question.run(rt.alloc(), from.wrapping_add(at))?.goal;
            let leftmost = question.leftmost(rt.alloc(), &goal)?;
            println!(rt; "  s{at} [label=\"{leftmost}\"];")?;
            let next = if at < span - 1 { at + 1 } else { 0 };
            println!(rt;
                "  s{at} -> s{next} [label=\"{}\"];",
                question.next_rule(&goal)
            )?;
        }
        println!(rt; "}}")
    }
}
