// What the reader of a text answers, as a definition, and what the answer means; no code.
#![tactic(auto)]
