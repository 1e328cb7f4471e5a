// How an answer is put together: a refusal, and what a search has closed with.
#![tactic(auto)]

ghost use Rattle.std.specs.Prelude.{◌≡◌, ◌≤◌, min};
ghost use Rattle.outcomes.specs.Outcome.{refused};
ghost use Rattle.endings.specs.Ending.{answered};

use outcomes::Answer;
use outcomes::admit::Admitted;
use states::Ended;

// "Codes 1 to 19 refuse the input .. and give steps, span, bytes and every count 0." Pick, apply call and run each answer by a struct of their own, and each
// definition has such a refusal: so there are three.
pub fn refused(a: Admitted) -> Answer
    ensures { result ≡ refused a }
{
    Answer {
        code: a.code,
        place: a.place,
        ..Answer::default()
    }
}

pub fn answered(e: Ended, bytes: usize, answer: usize) -> Answer
    requires { (bytes ≤ 16387) × (answer ≤ 16387) × (e.clause ≤ 512) × (e.argument ≤ 4096) }
    ensures { result ≡ answered e bytes answer }
{
    Answer {
        code: e.code,
        place: 0,
        steps: e.steps,
        span: e.span,
        bytes: bytes as u32,
        answer: answer as u32,
        furthest: e.clause as u32,
        argument: e.argument as u32,
    }
}

pub fn shorter(a: usize, b: usize) -> usize
    ensures { result ≡ min a b }
{
    a.min(b)
}
