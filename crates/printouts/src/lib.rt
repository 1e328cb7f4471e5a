// What printing answers (document 02, C-14), with no code: the definitions and what is proved of them are in specs.
#![tactic(auto)]

// "code, place"; and the text's bytes. No Result: C gets these numbers as one (textnumbers), and 0 is one of its codes.
#[derive(Clone, Copy)]
pub struct Printout {
    pub code: u8,
    pub place: usize,
    pub bytes: usize,
}

// Where a text stands: at its start, before a head, before a body's first formula, before a later formula, before the first formula of a goal.
#[derive(Clone, Copy)]
pub enum Turn {
    Start,
    Head,
    First,
    Later,
    Goal,
}
