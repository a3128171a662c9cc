// The second pass: the table words, from a place on, in file order. The file was scanned: what is read here was read before.
#![tactic(auto)]

pub mod filled;
pub mod groups;
mod instructions;
mod records;
pub mod runs;
