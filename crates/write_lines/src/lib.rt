// What is written for a row: whether an operand is outside 30 bits, and how long it is, if it is no instruction.
#![tactic(auto)]

pub mod length;
pub mod wide;
