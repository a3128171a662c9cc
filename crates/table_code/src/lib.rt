// 2: an instruction of the table words. Opcode and modes are in range, and unused registers are 0.
#![tactic(auto)]

ghost use Rattle.std.specs.Prelude.{◌≡◌, ◌&&◌, ◌+◌, ◌≤◌, length};
ghost use Rattle.format.specs.Views.{maybe};
ghost use Rattle.law_format.specs.Loops.{end_of};
ghost use Rattle.law_format.specs.Views.{record_at};
ghost use Rattle.format.specs.Words.{instruction_width};
ghost use Rattle.format.specs.WellFormed.{word, operand_from, middle_from, instruction_from};
ghost use Rattle.table_code.specs.Tests.{is_some, operand_there, registers_right, middle_there, middle_right, instruction_there};
ghost use Rattle.table_code.specs.View.{good_end};

use format::instruction::{AddressMode, Instruction, MiddleMode, MiddleOperand, Operand};
use format::module::INSTRUCTION_WIDTH;
use table_pieces::{byte_of, has_room};
use values::opcode::is_opcode;

// One register for the modes 0 to 2, none for 3, two for 4 and 5.
fn registers_right(operand: Operand) -> bool
    ensures { result ≡ registers_right operand }
{
    match operand.mode {
        AddressMode::OffsetIndirectMp | AddressMode::OffsetIndirectFp | AddressMode::Immediate => {
            operand.register2 == 0
        }
        AddressMode::None => operand.register1 == 0 && operand.register2 == 0,
        AddressMode::OffsetDoubleIndirectMp | AddressMode::OffsetDoubleIndirectFp => true,
    }
}

// As the words stand, of which the first says the mode.
fn operand_there(words: &[i32], mode: AddressMode, w: usize) -> Operand
    requires { w + 3 ≤ length words.now }
    ensures { result ≡ operand_there words.now mode w }
{
    Operand {
        mode,
        register1: words[w + 1],
        register2: words[w + 2],
    }
}

#[tactic(auto, using(crate::proofs::Instructions::mode_says))]
fn operand_from(words: &[i32], w: usize) -> Option<Operand>
    requires { w + 3 ≤ length words.now }
    ensures { maybe result ≡ operand_from (word words.now w) (word words.now (w + 1)) (word words.now (w + 2)) }
{
    let mode = AddressMode::try_from(byte_of(words[w])).ok()?;
    let operand = operand_there(words, mode, w);
    registers_right(operand).then_some(operand)
}

// No register for mode 0.
fn middle_right(operand: MiddleOperand) -> bool
    ensures { result ≡ middle_right operand }
{
    match operand.mode {
        MiddleMode::None => operand.register1 == 0,
        MiddleMode::SmallImmediate | MiddleMode::SmallOffsetFp | MiddleMode::SmallOffsetMp => true,
    }
}

// As the words stand, of which the first says the mode.
fn middle_there(words: &[i32], mode: MiddleMode, w: usize) -> MiddleOperand
    requires { w + 2 ≤ length words.now }
    ensures { result ≡ middle_there words.now mode w }
{
    MiddleOperand {
        mode,
        register1: words[w + 1],
    }
}

#[tactic(auto, using(crate::proofs::Instructions::middle_says))]
fn middle_from(words: &[i32], w: usize) -> Option<MiddleOperand>
    requires { w + 2 ≤ length words.now }
    ensures { maybe result ≡ middle_from (word words.now w) (word words.now (w + 1)) }
{
    let mode = MiddleMode::try_from(byte_of(words[w])).ok()?;
    let operand = middle_there(words, mode, w);
    middle_right(operand).then_some(operand)
}

// What the nine words say.
#[tactic(auto, using(crate::proofs::Instructions::opcode_says), unfolding(crate::specs::Tests::instruction_there))]
fn instruction_there(words: &[i32], w: usize) -> Option<Instruction>
    requires { w + instruction_width ≤ length words.now }
    ensures { maybe result ≡ instruction_there words.now w }
{
    let opcode = byte_of(words[w]);
    if !is_opcode(opcode) {
        return None;
    }
    Some(Instruction {
        opcode,
        source: operand_from(words, w + 1)?,
        middle: middle_from(words, w + 4)?,
        destination: operand_from(words, w + 6)?,
    })
}

#[tactic(auto, using(crate::proofs::Instructions::instruction_says))]
pub fn instruction_from(words: &[i32], w: usize) -> Option<Instruction>
    ensures { record_at instruction_width w result ≡ instruction_from words.now w }
{
    if !has_room(words, INSTRUCTION_WIDTH, w) {
        return None;
    }
    instruction_there(words, w)
}

fn good_operand(words: &[i32], w: usize) -> bool
    requires { w + 3 ≤ length words.now }
    ensures { result ≡ is_some (operand_from (word words.now w) (word words.now (w + 1)) (word words.now (w + 2))) }
{
    let no_first = words[w + 1] == 0;
    let no_second = words[w + 2] == 0;
    match byte_of(words[w]) {
        0..=2 => no_second,
        3 => no_first & no_second,
        4..=5 => true,
        6..=255 => false,
    }
}

fn good_middle(words: &[i32], w: usize) -> bool
    requires { w + 2 ≤ length words.now }
    ensures { result ≡ is_some (middle_from (word words.now w) (word words.now (w + 1))) }
{
    let no_first = words[w + 1] == 0;
    match byte_of(words[w]) {
        0 => no_first,
        1..=3 => true,
        4..=255 => false,
    }
}

// Every test is made before any is looked at: one branch an instruction.
#[tactic(auto, using(crate::proofs::Good::there_good, table_pieces::proofs::Facts::byte_kept))]
fn good_there(words: &[i32], w: usize) -> bool
    requires { w + instruction_width ≤ length words.now }
    ensures { result ≡ is_some (instruction_there words.now w) }
{
    let opcode = is_opcode(byte_of(words[w]));
    let source = good_operand(words, w + 1);
    let middle = good_middle(words, w + 4);
    let destination = good_operand(words, w + 6);
    (opcode & source) & (middle & destination)
}

// Whether there is an instruction, which is not built.
#[tactic(auto, using(crate::proofs::Instructions::instruction_says, crate::proofs::Good::end_good), unfolding(law_format::specs::Loops::end_of))]
pub fn good_instruction(words: &[i32], w: usize) -> bool
    ensures { good_end instruction_width w result ≡ end_of (instruction_from words.now w) }
{
    if !has_room(words, INSTRUCTION_WIDTH, w) {
        return false;
    }
    good_there(words, w)
}
