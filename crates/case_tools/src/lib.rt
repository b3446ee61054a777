// What `circuits` and `filed` share: buffers to lend, lines of output, and a circuit with all that belongs to it in one buffer, on which the calls are made.
#![tactic(auto)]

pub mod buffers;
pub mod circuits;
pub mod print;
