// The pen that lays a text (document 02, C-14): bytes, names and variables, brackets and commas, and what stands before and behind formulas.
#![tactic(auto)]

pub mod brackets; // what is owed, and the brackets and commas behind a term
pub mod laying; // bytes, names and variables
pub mod signs; // before a formula, and behind a clause

use printouts::Turn;

// Where the text stands: the place in its area; the place in the stack of the innermost symbol that is open; and before what it stands.
#[derive(Clone, Copy)]
pub struct Pen {
    pub at: usize,
    pub top: usize,
    pub turn: Turn,
}
