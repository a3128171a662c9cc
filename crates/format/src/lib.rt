// What a Dis object file says: its records, the answers about it, and why one is refused.
#![tactic(auto)]

pub mod instruction;
pub mod module;
pub mod opcode;
pub mod put;
pub mod refusal;
pub mod types;
pub mod walk;
