// The late checks, 10 to 19, over the records that were read.
#![tactic(auto)]

pub mod records;
pub mod sections;
