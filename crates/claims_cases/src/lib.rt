// The worked cases of 01 that are marked to be proved, as one table with one theorem. This crate
// has no code: the other lines are run by the programs. [SPEC 30.1]
#![tactic(auto)]
