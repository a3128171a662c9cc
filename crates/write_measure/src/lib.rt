// The sizing pass over well-formed tables: refusal 21 in writing order, or the true length of what is written.
#![tactic(auto)]

mod groups;
mod heads;
mod runs;
pub mod whole;

pub use crate::heads::{head_values, header_values};

// The bytes so far and the word where the next record begins.
#[derive(Clone, Copy)]
pub struct Measured {
    pub size: usize,
    pub next: usize,
}
