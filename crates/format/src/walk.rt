// The walk: where a module can be, what stops it, and what an event answers.
use crate::refusal::Refusal;

// A pc's frame type: none, the default of a module without types, or a type by its number.
#[derive(Clone, Copy)]
pub enum Frame {
    None,
    Default,
    Type(i32),
}

#[derive(Clone, Copy)]
pub enum Stop {
    NoEntry,
    NoCode,
    EndOfCode,
    Uncaught,
    NoCatchAll,
}

#[derive(Clone, Copy)]
pub enum State {
    Idle,
    At { pc: i32, frame: Frame },
    Stopped(Stop),
    Broken,
}

// A refused event, which hands the state back.
#[derive(Clone, Copy)]
pub struct Stayed {
    pub why: Refusal,
    pub state: State,
}
