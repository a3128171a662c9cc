// What an event makes of a walk's state, in a module of so many instructions and types. No tables are read here.
#![tactic(auto)]

ghost use Rattle.std.specs.Prelude.{◌≡◌, true, ◌≤◌, ◌^◌};
ghost use Rattle.format.specs.Checks as Checks;
ghost use Rattle.format.specs.Walk as Spec;
ghost use Rattle.walk_moves.specs.Stands.{Stands};

use format::module::{ExportEntry, Header, Sizes};
use format::walk::{Frame, State, Stop};
use values::ranges::below;

// An entry's or an export's: negative gives none; else an empty type table gives the default.
fn frame_of(types: usize, t: i32) -> Frame
    ensures { result ≡ Spec.frame_of types t }
{
    if t < 0 {
        return Frame::None;
    }
    if types == 0 {
        return Frame::Default;
    }
    Frame::Type(t)
}

// A handler's: only -1 is none.
fn handler_frame(t: i32) -> Frame
    ensures { result ≡ Spec.handler_frame t }
{
    if t == -1 {
        return Frame::None;
    }
    Frame::Type(t)
}

// None always counts as had, the default exactly with an empty type table.
fn has_frame(types: usize, frame: Frame) -> bool
    ensures { result ≡ Spec.has_frame types frame }
{
    match frame {
        Frame::None => true,
        Frame::Default => types == 0,
        Frame::Type(t) => below(types, t),
    }
}

#[tactic(auto, unfolding(format::specs::Walk::has_both))]
fn has_both(sizes: Sizes, pc: i32, frame: Frame) -> bool
    ensures { result ≡ Spec.has_both sizes.code sizes.types pc frame }
{
    below(sizes.code, pc) && has_frame(sizes.types, frame)
}

// A missing instruction or type is broken.
#[tactic(auto, unfolding(format::specs::Walk::go_to))]
fn go_to(sizes: Sizes, pc: i32, frame: Frame) -> State
    ensures { result ≡ Spec.go_to sizes.code sizes.types pc frame }
{
    if has_both(sizes, pc, frame) {
        return State::At { pc, frame };
    }
    State::Broken
}

// "No entry" comes before the frame is looked at.
#[tactic(auto, unfolding(format::specs::Walk::entered))]
pub fn entered(sizes: Sizes, header: Header) -> State
    ensures { result ≡ Spec.entered sizes.code sizes.types header }
{
    let pc = header.entry_pc;
    if pc == -1 {
        return State::Stopped(Stop::NoEntry);
    }
    go_to(sizes, pc, frame_of(sizes.types, header.entry_type))
}

#[tactic(auto, unfolding(format::specs::Walk::exported))]
pub fn exported(sizes: Sizes, export: ExportEntry) -> State
    ensures { result ≡ Spec.exported sizes.code sizes.types export }
{
    let pc = export.pc;
    if pc < 0 {
        return State::Stopped(Stop::NoCode);
    }
    go_to(sizes, pc, frame_of(sizes.types, export.frame))
}

// At the case that was chosen, last or not, of a handler with the type t.
#[tactic(auto, unfolding(format::specs::Walk::caught))]
pub fn caught(sizes: Sizes, t: i32, last: bool, pc: i32) -> State
    ensures { result ≡ Spec.caught sizes.code sizes.types t last pc }
{
    // Only the last case's -1 is none.
    if last && pc == -1 {
        return State::Stopped(Stop::NoCatchAll);
    }
    go_to(sizes, pc, handler_frame(t))
}

// From a pc of the code.
#[tactic(auto, unfolding(format::specs::Walk::advanced))]
fn advanced(code: usize, pc: i32, frame: Frame) -> State
    requires { (code ≤ 2 ^ 31) × (Checks.below code pc ≡ true) }
    ensures { result ≡ Spec.advanced code pc frame }
{
    let after = pc as usize + 1;
    if after < code {
        return State::At {
            pc: after as i32,
            frame,
        };
    }
    State::Stopped(Stop::EndOfCode)
}

// From where next and raise go on: a pc with its frame, or the state that stays. They do nothing when idle, stopped or broken; a pc or a frame that the module lacks is broken.
#[tactic(auto, unfolding(format::specs::Walk::from_there))]
pub fn standing_in(sizes: Sizes, state: State) -> Result<(i32, Frame), State>
    ensures { Stands sizes.code sizes.types state result }
{
    match state {
        State::At { pc, frame } if has_both(sizes, pc, frame) => Ok((pc, frame)),
        State::At { .. } => Err(State::Broken),
        State::Idle | State::Stopped(_) | State::Broken => Err(state),
    }
}

// Next: to the instruction that follows, or to the end of the code.
#[tactic(auto, using(crate::proofs::Below::had_code))]
pub fn stepped(sizes: Sizes, state: State) -> State
    requires { sizes.code ≤ 2 ^ 31 }
    ensures { result ≡ Spec.from_there sizes.code sizes.types (Spec.advanced sizes.code) state }
{
    match standing_in(sizes, state) {
        Err(same) => same,
        Ok((pc, frame)) => advanced(sizes.code, pc, frame),
    }
}
