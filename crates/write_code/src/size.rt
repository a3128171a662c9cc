// How long an instruction's line is.
ghost use Rattle.std.specs.Prelude.{◌≡◌, ◌+◌, length};
ghost use Rattle.format.specs.Operands.{in30bits, encode_operand};
ghost use Rattle.format.specs.WellFormed.{is_none};
ghost use Rattle.write_lines.specs.Lines.{bytes_of, first_wide};
ghost use Rattle.write_code.specs.There.{used_registers, used_middle, registers_there, middle_there, parts_there, narrow_len, GoodOperand, GoodMiddle, GoodWords};

use crate::byte_there;
use bits::magnitude;

fn is_narrow(v: i32) -> bool
    ensures { result ≡ in30bits v }
{
    match magnitude(v) {
        0..=0x1FFF_FFFF => true,
        0x2000_0000..=0xFFFF_FFFF => false,
    }
}

// What the shortest form has over one byte: 0 for a register that is not used.
#[tactic(auto, using(crate::proofs::Sizes::more_none, crate::proofs::Sizes::more_one, crate::proofs::Sizes::more_three))]
pub fn more(v: i32) -> usize
    ensures { result + 1 ≡ length (encode_operand v) }
{
    match magnitude(v) {
        0..=0x3F => 0,
        0x40..=0x1FFF => 1,
        0x2000..=0xFFFF_FFFF => 3,
    }
}

// Registers that are not used are 0, which is narrow.
fn narrow_registers(words: &[i32], w: usize) -> bool
    requires { GoodOperand words.now w }
    ensures { result ≡ is_none (first_wide (registers_there words.now w)) }
{
    is_narrow(words[w + 1]) & is_narrow(words[w + 2])
}

fn narrow_middle(words: &[i32], w: usize) -> bool
    requires { GoodMiddle words.now w }
    ensures { result ≡ is_none (first_wide (middle_there words.now w)) }
{
    is_narrow(words[w + 1])
}

#[tactic(auto, using(crate::proofs::Sizes::used_one, crate::proofs::Sizes::used_none, crate::proofs::Sizes::used_two))]
pub fn used_registers(mode: u8) -> usize
    ensures { result ≡ used_registers mode }
{
    match mode {
        0..=2 => 1,
        3 => 0,
        4..=255 => 2,
    }
}

#[tactic(auto, using(crate::proofs::Sizes::middle_unused, crate::proofs::Sizes::middle_used))]
pub fn used_middle(mode: u8) -> usize
    ensures { result ≡ used_middle mode }
{
    match mode {
        0 => 0,
        1..=255 => 1,
    }
}

fn registers_size(words: &[i32], w: usize) -> usize
    requires { GoodOperand words.now w }
    ensures { result ≡ length (bytes_of (registers_there words.now w)) }
{
    used_registers(byte_there(words, w)) + more(words[w + 1]) + more(words[w + 2])
}

fn middle_size(words: &[i32], w: usize) -> usize
    requires { GoodMiddle words.now w }
    ensures { result ≡ length (bytes_of (middle_there words.now w)) }
{
    used_middle(byte_there(words, w)) + more(words[w + 1])
}

#[tactic(auto, using(crate::proofs::Sizes::parts_narrow))]
fn narrow_there(words: &[i32], w: usize) -> bool
    requires { GoodWords words.now w }
    ensures { result ≡ is_none (first_wide (parts_there words.now w)) }
{
    let middle = narrow_middle(words, w + 4);
    let source = narrow_registers(words, w + 1);
    let destination = narrow_registers(words, w + 6);
    middle & source & destination
}

// 0 where an operand is too wide.
#[tactic(auto, using(crate::proofs::Sizes::parts_long, crate::proofs::Sizes::size_narrow, crate::proofs::Sizes::size_wide, crate::proofs::Sizes::middle_most, crate::proofs::Sizes::registers_most))]
pub fn size_there(words: &[i32], w: usize) -> usize
    requires { GoodWords words.now w }
    ensures { result ≡ narrow_len (parts_there words.now w) }
{
    if !narrow_there(words, w) {
        return 0;
    }
    2 + middle_size(words, w + 4) + registers_size(words, w + 1) + registers_size(words, w + 6)
}
