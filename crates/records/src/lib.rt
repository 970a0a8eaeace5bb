// The program's input, a stream of records, and the lines of its output.
#![tactic(auto)]

pub mod lines;
pub mod stream;
