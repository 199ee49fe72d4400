// One gate by itself: the phases in which it can be, and the moves that its steps make. It has no code: the proofs of the
// law of runs build on it.
#![tactic(auto)]
