// States of a run whose goal and answer stay on the heap.
#![tactic(auto)]
