// An instruction so far from the file's end that each operand it can have is whole, with a valid opcode and valid modes: its numbers are read with
// no refusal in sight, so that the answers are plain values.
ghost use Rattle.std.specs.Prelude.{◌≡◌, ◌+◌, ◌≤◌, length};
ghost use Rattle.format.specs.Records.{mode_of, middle_of};
ghost use Rattle.file_code.specs.Plain as Spec;

use bits::be32;
use format::instruction::Addressing;
use format::types::Cursor;
use values::opcode::is_opcode;

// What an operand's first byte says: how long the operand is, what the highest bit of its value is worth, and how far from the end of four bytes its
// bits end.
#[derive(Clone, Copy)]
pub struct Form {
    pub width: usize,
    pub half: u32,
    pub shift: u32,
}

// Three arms of constants are selects: no jump that could be guessed wrong.
#[tactic(auto, unfolding(crate::specs::Plain::width, crate::specs::Plain::half_of, crate::specs::Plain::shift_of))]
pub fn form_of(b: u8) -> Form
    ensures width { result.width ≡ Spec.width b }
    ensures half { result.half ≡ Spec.half_of b }
    ensures shift { result.shift ≡ Spec.shift_of b }
{
    match b {
        0..=127 => Form {
            width: 1,
            half: 0x40,
            shift: 24,
        },
        128..=191 => Form {
            width: 2,
            half: 0x2000,
            shift: 16,
        },
        192..=255 => Form {
            width: 4,
            half: 0x2000_0000,
            shift: 0,
        },
    }
}

// The operands that a mode has; for what is no mode, more than an instruction can have. An arm for each mode makes it a table: a range would be
// a jump, and often guessed wrong.
pub fn operands_for(mode: u8) -> u32
    ensures { result ≡ Spec.operands_for (mode_of mode) }
{
    match mode {
        0 => 1,
        1 => 1,
        2 => 1,
        3 => 0,
        4 => 2,
        5 => 2,
        6..=255 => 9,
    }
}

// The middle operands that a middle mode has: one or none; for what is no mode, more than an instruction can have.
pub fn middles_for(mode: u8) -> u32
    ensures { result ≡ Spec.middles_for (middle_of mode) }
{
    match mode {
        0 => 0,
        1..=3 => 1,
        4..=255 => 9,
    }
}

#[tactic(auto, using(crate::proofs::PlainLaws::middles_most, crate::proofs::PlainLaws::operands_most), unfolding(crate::specs::Plain::operands_in))]
fn operands_in(b: u8) -> u32
    ensures { result ≡ Spec.operands_in b }
{
    let modes = Addressing::from(b);
    middles_for(modes.middle) + operands_for(modes.source) + operands_for(modes.destination)
}

// How many operands a plain instruction has, five at most; of any other, more.
#[tactic(auto, unfolding(crate::specs::Plain::plain_operands))]
pub fn plain_operands(file: &[u8], c: Cursor) -> u32
    ensures { result ≡ Spec.plain_operands file.now c }
{
    let at = c.at;
    if file.len() < 22 {
        return 9;
    }
    if file.len() - 22 < at {
        return 9;
    }
    if !is_opcode(file[at]) {
        return 9;
    }
    operands_in(file[at + 1])
}

#[tactic(auto, unfolding(crate::specs::Plain::is_plain))]
pub fn is_plain(file: &[u8], c: Cursor) -> bool
    ensures { result ≡ Spec.is_plain file.now c }
{
    plain_operands(file, c) <= 5
}

// The value of an operand, whose bits stand at the front of four bytes, and half its range: no number is below zero, so that no jump is on the sign.
fn raised(b: u8, window: u32) -> u32
    ensures { result ≡ Spec.raised b window }
{
    let form = form_of(b);
    let half = form.half as u64;
    let bits = (window as u64) >> form.shift;
    ((bits + half) & (half + half - 1)) as u32
}

// The form chooses among numbers: no jump is on it either.
fn value_at(file: &[u8], c: Cursor) -> i32
    requires { c.at + 4 ≤ length file.now }
    ensures { result ≡ Spec.value_at file.now c }
{
    let at = c.at;
    let b = file[at];
    let window = be32(b, file[at + 1], file[at + 2], file[at + 3]);
    (raised(b, window) as i32) - (form_of(b).half as i32)
}

// Of n operands, the first's value.
pub fn first_of(file: &[u8], n: u32, c: Cursor) -> i32
    requires { c.at + 4 ≤ length file.now }
    ensures { result ≡ Spec.first_of n file.now c }
{
    if n == 0 {
        return 0;
    }
    value_at(file, c)
}

// And the second's.
#[tactic(auto, using(crate::proofs::PlainLaws::width_most))]
pub fn second_of(file: &[u8], n: u32, c: Cursor) -> i32
    requires { c.at + 8 ≤ length file.now }
    ensures { result ≡ Spec.second_of n file.now c }
{
    if n < 2 {
        return 0;
    }
    let at = c.at;
    value_at(file, c.past(form_of(file[at]).width))
}

// The place past n operands, of which there are two at most: of a source or a destination, with no loop.
#[tactic(auto, using(crate::proofs::PlainLaws::width_most), unfolding(crate::specs::Plain::past_operands))]
pub fn past_two(file: &[u8], n: u32, c: Cursor) -> Cursor
    requires { (n ≤ 2) × (c.at + 8 ≤ length file.now) }
    ensures { result ≡ Spec.past_operands file.now n c }
{
    if n == 0 {
        return c;
    }
    let at = c.at;
    let d = c.past(form_of(file[at]).width);
    if n == 1 {
        return d;
    }
    let at2 = d.at;
    d.past(form_of(file[at2]).width)
}
