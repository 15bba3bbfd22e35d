// The lines of a script of calls (docs/REPLAY.md): read, with the memory that they share, what is kept
// of earlier calls, and what answers them. `test_replay_parts` makes the calls, and `test_replay` runs it all.
#![tactic(auto)]

pub mod command;
pub mod kept;
pub mod memory;
pub mod put;
pub mod request;
pub mod shown;
