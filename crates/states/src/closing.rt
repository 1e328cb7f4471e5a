// How a state closes the run.
ghost use Rattle.std.specs.Prelude.{◌≡◌};
ghost use Rattle.states.specs.Codes.{number};
ghost use Rattle.states.specs.States.{closed, stuck_at};

use crate::{Code, Ended, Place};
use detector::Detector;

pub fn close(
    code: u8,
    detector: Detector,
    span: u32,
    words: usize,
    formulas: usize,
    answer: usize,
) -> Ended
    ensures { result ≡ closed code detector span words formulas answer }
{
    Ended {
        code,
        steps: detector.step,
        span,
        words,
        formulas,
        answer,
        clause: 0,
        argument: 0,
    }
}

impl Place {
    // An open state that closes; it is no loop.
    pub fn close(self, code: Code) -> Ended
        ensures { result ≡ closed (number code) self.detector 0 self.words self.formulas self.answer }
    {
        close(
            u8::from(code),
            self.detector,
            0,
            self.words,
            self.formulas,
            self.answer,
        )
    }

    // An open state that closes with 22: "the clause that got furthest", and the argument at which its head fails.
    pub fn close_stuck(self, clause: usize, argument: usize) -> Ended
        ensures { result ≡ stuck_at self clause argument }
    {
        Ended {
            clause,
            argument,
            ..self.close(Code::Stuck)
        }
    }
}
