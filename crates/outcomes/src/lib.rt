// What the public entries take and what they answer: one step, and the run (document 01); the step in two calls (document 02, C-16).
// Each takes any arguments and refuses what is not good.
#![tactic(auto)]

pub mod admit; // what is refused

// What a run answers: "Result: code, place, steps, span, bytes written."; "the answer's bytes" (document 02, C-11); and with code 22 the clause
// that got furthest and the argument at which its head fails, which are 0 with every other code (C-19). So it is with the pick and the single step.
#[derive(Clone, Copy, Default)]
pub struct Answer {
    pub code: u8,
    pub place: u32,
    pub steps: u32,
    pub span: u32,
    pub bytes: u32,
    pub answer: u32,
    pub furthest: u32,
    pub argument: u32,
}

// What a pick answers: code, place, steps, and the clause's number.
#[derive(Clone, Copy, Default)]
pub struct Picked {
    pub code: u8,
    pub place: u32,
    pub steps: u32,
    pub clause: u32,
    pub furthest: u32,
    pub argument: u32,
}

// What a single step answers, and the apply call: as a run, with the clause number.
#[derive(Clone, Copy, Default)]
pub struct Stepped {
    pub code: u8,
    pub place: u32,
    pub steps: u32,
    pub span: u32,
    pub bytes: u32,
    pub clause: u32,
    pub furthest: u32,
    pub argument: u32,
}
