// The single step, and a clause applied by its number (document 02, C-16).
#![tactic(auto)]

pub mod apply; // a clause applied by its number
pub mod step; // the single step, of the two
