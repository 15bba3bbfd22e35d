// Demand 3 (01, "A door's list of calls"): claims over every list of calls on a door's four parts, by
// the definitions that the calls' contracts name. This crate has no code. [SPEC 27.1]
#![tactic(auto)]
