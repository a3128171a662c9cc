// The boundary to other languages: the six functions that crate `abi_c` exports for C. Nothing is asked of the caller beyond what a slice is: a pointer to so many elements.
#![tactic(auto)]

ghost use Rattle.std.specs.Prelude.{ℕ, ℤ, List, ◌≡◌};
ghost use Rattle.format.specs.Answers.{WalkAnswer};
ghost use Rattle.format.specs.Walk as Walk;
ghost use Rattle.abi_numbers.specs.Numbers.{module_in, state_in};
ghost use Rattle.abi.specs.Boundary as Spec;

use abi_answers::{enough, enough_to_walk, put_loaded, put_walked, put_written};
use abi_numbers::{module_in, state_in};
use format::module::Module;
use format::walk::{State, Stayed};
use load::load;
use walk::{entry, export, next, raise};
use write::write;

// A file, into words and a module's numbers.
#[tactic(auto, using(crate::proofs::Sides::room), unfolding(crate::specs::Boundary::dis_load))]
pub fn dis_load(file: &[u8], words: &mut [i32], numbers: &mut [i32], answer: &mut [i64]) -> i32
    ensures { Spec.dis_load file.now words.old numbers.old answer.old ≡ (result, words.new, numbers.new, answer.new) }
{
    if !enough(numbers.len(), answer.len()) {
        return -1;
    }
    put_loaded(numbers, answer, load(file, words));
    0
}

// A module, into bytes.
#[tactic(auto, using(crate::proofs::Sides::room), unfolding(crate::specs::Boundary::dis_write))]
pub fn dis_write(
    numbers: &[i32],
    file: &[u8],
    words: &[i32],
    out: &mut [u8],
    answer: &mut [i64],
) -> i32
    ensures { Spec.dis_write numbers.now file.now words.now out.old answer.old ≡ (result, out.new, answer.new) }
{
    if !enough(numbers.len(), answer.len()) {
        return -1;
    }
    put_written(answer, write(module_in(numbers), file, words, out));
    0
}

// The walk, by an event: where the event does what is said of one, that is what the whole does.
#[tactic(auto, unfolding(abi_answers::specs::Answers::enough, abi_answers::specs::Answers::enough_to_walk, crate::specs::Boundary::dis_walk))]
fn walk_by<F: FnOnce(Module, State) -> Result<State, Stayed>>(
    numbers: &[i32],
    state: &mut [i32],
    answer: &mut [i64],
    event: F,
) -> i32
    requires { F.IsAlwaysCallable event }
    ensures { (said : Walk.Event) (file : List ℕ) (words : List ℤ)
        → ((w : WalkAnswer) → F.post event (module_in numbers.now) (state_in state.old) w → Walk.walk_of (module_in numbers.now) file words said (state_in state.old) ≡ w)
        → Spec.dis_walk said numbers.now file words state.old answer.old ≡ (result, state.new, answer.new) }
{
    if !enough_to_walk(numbers.len(), state.len(), answer.len()) {
        return -1;
    }
    let walked = event(module_in(numbers), state_in(state));
    put_walked(state, answer, walked);
    0
}

// The walk: to the module's entry.
pub fn dis_entry(
    numbers: &[i32],
    file: &[u8],
    words: &[i32],
    state: &mut [i32],
    answer: &mut [i64],
) -> i32
    ensures { Spec.dis_walk Walk.entry numbers.now file.now words.now state.old answer.old ≡ (result, state.new, answer.new) }
{
    walk_by(numbers, state, answer, |m, s| entry(m, file, words, s))
}

// The walk: to export k.
pub fn dis_export(
    numbers: &[i32],
    file: &[u8],
    words: &[i32],
    k: u32,
    state: &mut [i32],
    answer: &mut [i64],
) -> i32
    ensures { Spec.dis_walk (Walk.export k) numbers.now file.now words.now state.old answer.old ≡ (result, state.new, answer.new) }
{
    walk_by(numbers, state, answer, |m, s| export(m, file, words, k, s))
}

// The walk: to the next instruction.
pub fn dis_next(
    numbers: &[i32],
    file: &[u8],
    words: &[i32],
    state: &mut [i32],
    answer: &mut [i64],
) -> i32
    ensures { Spec.dis_walk Walk.next numbers.now file.now words.now state.old answer.old ≡ (result, state.new, answer.new) }
{
    walk_by(numbers, state, answer, |m, s| next(m, file, words, s))
}

// The walk: a name is raised.
pub fn dis_raise(
    numbers: &[i32],
    file: &[u8],
    words: &[i32],
    name: &[u8],
    state: &mut [i32],
    answer: &mut [i64],
) -> i32
    ensures { Spec.dis_walk (Walk.raise name.now) numbers.now file.now words.now state.old answer.old ≡ (result, state.new, answer.new) }
{
    walk_by(
        numbers,
        state,
        answer,
        |m, s| raise(m, file, words, name, s),
    )
}
