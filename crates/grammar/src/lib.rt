// The notation in which rule books are written, as definitions and theorems; no code.
#![tactic(auto)]
