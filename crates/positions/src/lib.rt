// Terms as positions in an array of words, and positions in classes, in rows that the caller lends (words::rows): what the functions of unification mean, where terms
// end, and the first classes.
#![tactic(auto)]

pub mod reading; // the position of a variable, the root of a class
pub mod starting; // where terms end, and the first classes

// The answer where words clash, and where there is no room; no position, rank or argument has this number.
pub const CLASH: usize = 65535;
