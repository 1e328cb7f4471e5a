// The next goal by a trial on the heap: the row, the clause behind it, and what the trial binds.
#![tactic(auto)]

pub mod carrying; // the next goal and answer written
pub mod stepping; // the step by the first clause that fits
