// Modules, states and answers as numbers at the front of a lent slice, for callers in other languages. What stands past them stays as lent.
#![tactic(auto)]

ghost use Rattle.std.specs.Prelude.{◌≡◌, ◌≤◌, length};
ghost use Rattle.format.specs.Put.{put};
ghost use Rattle.abi_numbers.specs.Numbers as Spec;

use format::module::{Header, Module};
use format::put::put_all;
use format::refusal::{Numbered, Refusal};
use format::types::Span;
use format::walk::{Frame, State, Stop};

// How many numbers there are.
pub const MODULE_WIDTH: usize = 16;

pub const STATE_WIDTH: usize = 3;

pub const ANSWER_WIDTH: usize = 4;

// A count or a place as a signed number: below 2^63 it is itself.
#[tactic(auto, unfolding(crate::specs::Numbers::wide))]
fn wide(n: usize) -> i64
    ensures { result ≡ Spec.wide n }
{
    (n as u64).cast_signed()
}

// Not refused: 0 and two counts.
pub fn put_done(answer: &mut [i64], a: usize, b: usize)
    requires { Spec.answer_width ≤ length answer.old }
    ensures { answer.new ≡ put 0 (Spec.done_numbers a b) answer.old }
{
    put_all(answer, 0, [0, wide(a), wide(b), 0]);
}

pub fn put_refusal(answer: &mut [i64], why: Refusal)
    requires { Spec.answer_width ≤ length answer.old }
    ensures { answer.new ≡ put 0 (Spec.refusal_numbers why) answer.old }
{
    let n = Numbered::from(why);
    put_all(
        answer,
        0,
        [n.number.into(), n.section.into(), wide(n.place), n.detail],
    );
}

#[tactic(auto, unfolding(crate::specs::Numbers::module_numbers))]
pub fn put_module(numbers: &mut [i32], m: Module)
    requires { Spec.module_width ≤ length numbers.old }
    ensures { numbers.new ≡ put 0 (Spec.module_numbers m) numbers.old }
{
    let h = m.header;
    let signature = h.signature;
    let name = m.name;
    put_all(
        numbers,
        0,
        [
            h.magic,
            signature.start,
            signature.len,
            h.flags,
            h.stack_extent,
            h.code_size,
            h.data_size,
            h.type_size,
            h.export_size,
            h.entry_pc,
            h.entry_type,
            name.start,
            name.len,
            m.items,
            m.imports,
            m.handlers,
        ],
    );
}

#[tactic(auto, unfolding(crate::specs::Numbers::module_in))]
pub fn module_in(numbers: &[i32]) -> Module
    requires { Spec.module_width ≤ length numbers.now }
    ensures { result ≡ Spec.module_in numbers.now }
{
    Module {
        header: Header {
            magic: numbers[0],
            signature: Span {
                start: numbers[1],
                len: numbers[2],
            },
            flags: numbers[3],
            stack_extent: numbers[4],
            code_size: numbers[5],
            data_size: numbers[6],
            type_size: numbers[7],
            export_size: numbers[8],
            entry_pc: numbers[9],
            entry_type: numbers[10],
        },
        name: Span {
            start: numbers[11],
            len: numbers[12],
        },
        items: numbers[13],
        imports: numbers[14],
        handlers: numbers[15],
    }
}

fn frame_number(frame: Frame) -> i32
    ensures { result ≡ Spec.frame_number frame }
{
    match frame {
        Frame::None => -1,
        Frame::Default => -2,
        Frame::Type(t) => t,
    }
}

fn stop_number(why: Stop) -> i32
    ensures { result ≡ Spec.stop_number why }
{
    match why {
        Stop::NoEntry => 1,
        Stop::NoCode => 2,
        Stop::EndOfCode => 3,
        Stop::Uncaught => 4,
        Stop::NoCatchAll => 5,
    }
}

pub fn put_state(numbers: &mut [i32], state: State)
    requires { Spec.state_width ≤ length numbers.old }
    ensures { numbers.new ≡ put 0 (Spec.state_numbers state) numbers.old }
{
    let three = match state {
        State::Idle => [0, 0, 0],
        State::At { pc, frame } => [1, pc, frame_number(frame)],
        State::Stopped(why) => [2, stop_number(why), 0],
        State::Broken => [3, 0, 0],
    };
    put_all(numbers, 0, three);
}

fn frame_by(t: i32) -> Frame
    ensures { result ≡ Spec.frame_by t }
{
    match t {
        -1 => Frame::None,
        -2 => Frame::Default,
        _ => Frame::Type(t),
    }
}

fn stopped_by(reason: i32) -> State
    ensures { result ≡ Spec.state_by Spec.stops reason }
{
    match reason {
        1 => State::Stopped(Stop::NoEntry),
        2 => State::Stopped(Stop::NoCode),
        3 => State::Stopped(Stop::EndOfCode),
        4 => State::Stopped(Stop::Uncaught),
        5 => State::Stopped(Stop::NoCatchAll),
        _ => State::Broken,
    }
}

fn state_by(code: i32, a: i32, b: i32) -> State
    ensures { result ≡ Spec.state_by (Spec.states a b) code }
{
    match code {
        0 => State::Idle,
        1 => State::At {
            pc: a,
            frame: frame_by(b),
        },
        2 => stopped_by(a),
        _ => State::Broken,
    }
}

#[tactic(auto, unfolding(crate::specs::Numbers::state_in))]
pub fn state_in(numbers: &[i32]) -> State
    requires { Spec.state_width ≤ length numbers.now }
    ensures { result ≡ Spec.state_in numbers.now }
{
    state_by(numbers[0], numbers[1], numbers[2])
}
