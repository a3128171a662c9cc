// Rows of a section of any kind: one loop passes over them all, one fills the table, one checks, one measures; two write.
#![tactic(auto)]

pub mod groups;

#[derive(Clone, Copy)]
pub enum Kind {
    Code,
    Types,
    Items,
    Exports,
    Functions,
    Cases,
}
