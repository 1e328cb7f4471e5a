// Two rows of the heap made equal by binding variables.
#![tactic(auto)]

pub mod meeting; // what two rows come to
pub mod pairs; // pairs that are still due
pub mod occurring; // the occur check
pub mod binding; // bindings, and how they are undone
pub mod unifying; // two rows made equal
pub mod heads; // a head and a formula made equal by the head's own variables
pub mod fitting; // and by all
