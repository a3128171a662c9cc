// The first pass: where each section ends, and how many records and table words it has. Nothing is stored.
#![tactic(auto)]

pub mod runs;
pub mod sections;
