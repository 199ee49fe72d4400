// The box as a whole: what the acceptance of each call says, and the relation between gates, ways and seats that every
// accepted call keeps. It has no code: the law of runs builds on it.
#![tactic(auto)]
