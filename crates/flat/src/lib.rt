// Flat books and queries, of constants and variables only, as definitions and theorems; no code.
#![tactic(auto)]
