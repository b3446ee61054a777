// The arithmetic of a row, for the row check, the prover and whoever counts: its gate, its factors and their products N and D, and the tags of all positions. No call of its own: the
// layers above have checked their numbers.
#![tactic(auto)]

pub mod products;
pub mod rows;
pub mod tables;
