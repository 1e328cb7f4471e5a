// How far a query's text is read, in numbers (document 02, C-13).
#![tactic(auto)]

pub mod advancing; // what a piece changes
pub mod modes; // what may stand next
pub mod sizes; // what would be one too many

// Before the first formula; before a formula or an argument that must come; behind a name, whose bracket may follow; behind a formula or an argument; behind the full stop; nowhere.
#[derive(Clone, Copy)]
pub enum Mode {
    Begin,
    Expects,
    Named,
    Complete,
    Over,
    Wrong,
}

// What may stand next; the commas outside all brackets; how many brackets are open; names and variables.
#[derive(Clone, Copy)]
pub struct Stage {
    pub mode: Mode,
    pub outside: usize,
    pub depth: usize,
    pub words: usize,
}
