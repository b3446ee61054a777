// The blocks in which `cases` reads its cases: their lines, the buffers that these describe, and the words of the output; and what every test program
// does with words.
#![tactic(auto)]

pub mod buffers;
pub mod bytes;
pub mod lines;
pub mod print;
pub mod words;
