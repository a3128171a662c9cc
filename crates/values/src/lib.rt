// What the numbers of a record say: opcodes, the addressing byte, flags and the shapes of data.
#![tactic(auto)]

pub mod instruction;
pub mod module;
pub mod opcode;
pub mod ranges;
