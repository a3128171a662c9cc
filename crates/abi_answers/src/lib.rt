// What loading, writing and the walk answer, as numbers at the front of lent slices; and whether slices are long enough for them.
#![tactic(auto)]

ghost use Rattle.std.specs.Prelude.{◌≡◌, ◌≤◌, length};
ghost use Rattle.format.specs.Put.{put};
ghost use Rattle.abi_numbers.specs.Numbers.{module_width, state_width, answer_width};
ghost use Rattle.abi_answers.specs.Answers as Spec;

use abi_numbers::{
    ANSWER_WIDTH, MODULE_WIDTH, STATE_WIDTH, put_done, put_module, put_refusal, put_state,
};
use format::module::Loaded;
use format::refusal::Refusal;
use format::walk::{State, Stayed};

// Whether slices of so many numbers can hold a module and an answer.
#[tactic(auto, unfolding(crate::specs::Answers::enough))]
pub fn enough(numbers: usize, answer: usize) -> bool
    ensures { result ≡ Spec.enough numbers answer }
{
    MODULE_WIDTH <= numbers && ANSWER_WIDTH <= answer
}

// The same, and a state.
#[tactic(auto, unfolding(crate::specs::Answers::enough_to_walk))]
pub fn enough_to_walk(numbers: usize, state: usize, answer: usize) -> bool
    ensures { result ≡ Spec.enough_to_walk numbers state answer }
{
    STATE_WIDTH <= state && enough(numbers, answer)
}

pub fn put_loaded(numbers: &mut [i32], answer: &mut [i64], loaded: Result<Loaded, Refusal>)
    requires { (module_width ≤ length numbers.old) × (answer_width ≤ length answer.old) }
    ensures { (numbers.new ≡ Spec.module_after loaded numbers.old) × (answer.new ≡ put 0 (Spec.load_answer loaded) answer.old) }
{
    match loaded {
        Err(why) => put_refusal(answer, why),
        Ok(l) => {
            put_module(numbers, l.module);
            put_done(answer, l.used, l.needed);
        }
    }
}

pub fn put_written(answer: &mut [i64], written: Result<usize, Refusal>)
    requires { answer_width ≤ length answer.old }
    ensures { answer.new ≡ put 0 (Spec.write_answer written) answer.old }
{
    match written {
        Err(why) => put_refusal(answer, why),
        Ok(used) => put_done(answer, used, 0),
    }
}

// A refusal leaves the state as lent.
pub fn put_walked(state: &mut [i32], answer: &mut [i64], walked: Result<State, Stayed>)
    requires { (state_width ≤ length state.old) × (answer_width ≤ length answer.old) }
    ensures { (state.new ≡ Spec.state_after walked state.old) × (answer.new ≡ put 0 (Spec.walk_answer walked) answer.old) }
{
    match walked {
        Err(stayed) => put_refusal(answer, stayed.why),
        Ok(next) => {
            put_state(state, next);
            put_done(answer, 0, 0);
        }
    }
}
