// 2, code.
#![tactic(auto)]

pub mod plain;
pub mod skip;

ghost use Rattle.std.specs.Prelude.{◌≡◌};
ghost use Rattle.format.specs.Sections.{one_register, two_registers, addressed_at, middle_register, middle_at, operands_at, instruction_at};
ghost use Rattle.law_format.specs.Views.{as_step};

use format::instruction::{
    AddressMode, Addressing, Instruction, MiddleMode, MiddleOperand, Operand,
};
use format::refusal::Refusal;
use format::types::Cursor;
use reader::{read_byte, read_operand};
use values::opcode::is_opcode;

#[tactic(auto, unfolding(format::specs::Sections::one_register))]
fn read_one(file: &[u8], mode: AddressMode, c: Cursor) -> Result<(Operand, Cursor), Refusal>
    ensures { as_step result ≡ one_register file.now mode c }
{
    let Some((register1, next)) = read_operand(file, c) else {
        return Err(Refusal::ended(2, c));
    };
    Ok((
        Operand {
            mode,
            register1,
            register2: 0,
        },
        next,
    ))
}

#[tactic(auto, unfolding(format::specs::Sections::two_registers))]
fn read_two(file: &[u8], mode: AddressMode, c: Cursor) -> Result<(Operand, Cursor), Refusal>
    ensures { as_step result ≡ two_registers file.now mode c }
{
    let Some((register1, d)) = read_operand(file, c) else {
        return Err(Refusal::ended(2, c));
    };
    let Some((register2, next)) = read_operand(file, d) else {
        return Err(Refusal::ended(2, d));
    };
    Ok((
        Operand {
            mode,
            register1,
            register2,
        },
        next,
    ))
}

// The operands of a mode. The addressing byte stands at `place`.
#[tactic(auto, unfolding(format::specs::Sections::addressed_at))]
pub fn read_addressed(
    file: &[u8],
    place: usize,
    n: u8,
    c: Cursor,
) -> Result<(Operand, Cursor), Refusal>
    ensures { as_step result ≡ addressed_at file.now place n c }
{
    let Ok(mode) = AddressMode::try_from(n) else {
        return Err(Refusal::BadMode { place, mode: n });
    };
    match mode {
        AddressMode::OffsetIndirectMp | AddressMode::OffsetIndirectFp | AddressMode::Immediate => {
            read_one(file, mode, c)
        }
        AddressMode::None => Ok((
            Operand {
                mode,
                register1: 0,
                register2: 0,
            },
            c,
        )),
        AddressMode::OffsetDoubleIndirectMp | AddressMode::OffsetDoubleIndirectFp => {
            read_two(file, mode, c)
        }
    }
}

#[tactic(auto, unfolding(format::specs::Sections::middle_register))]
fn read_middle_register(
    file: &[u8],
    mode: MiddleMode,
    c: Cursor,
) -> Result<(MiddleOperand, Cursor), Refusal>
    ensures { as_step result ≡ middle_register file.now mode c }
{
    let Some((register1, next)) = read_operand(file, c) else {
        return Err(Refusal::ended(2, c));
    };
    Ok((MiddleOperand { mode, register1 }, next))
}

#[tactic(auto, unfolding(format::specs::Sections::middle_at))]
pub fn read_middle(
    file: &[u8],
    place: usize,
    n: u8,
    c: Cursor,
) -> Result<(MiddleOperand, Cursor), Refusal>
    ensures { as_step result ≡ middle_at file.now place n c }
{
    let Ok(mode) = MiddleMode::try_from(n) else {
        return Err(Refusal::BadMode { place, mode: n });
    };
    match mode {
        MiddleMode::None => Ok((MiddleOperand { mode, register1: 0 }, c)),
        MiddleMode::SmallImmediate | MiddleMode::SmallOffsetFp | MiddleMode::SmallOffsetMp => {
            read_middle_register(file, mode, c)
        }
    }
}

// The operands stand in the order middle, source, destination; a mode 6 or 7 is refused when its turn comes.
#[tactic(auto, unfolding(format::specs::Sections::operands_at))]
fn read_operands(
    file: &[u8],
    opcode: u8,
    place: usize,
    b: u8,
    c: Cursor,
) -> Result<(Instruction, Cursor), Refusal>
    ensures { as_step result ≡ operands_at file.now opcode place b c }
{
    let modes = Addressing::from(b);
    let (middle, d) = read_middle(file, place, modes.middle, c)?;
    let (source, e) = read_addressed(file, place, modes.source, d)?;
    let (destination, next) = read_addressed(file, place, modes.destination, e)?;
    Ok((
        Instruction {
            opcode,
            source,
            middle,
            destination,
        },
        next,
    ))
}

#[tactic(auto, unfolding(format::specs::Sections::instruction_at))]
pub fn read_instruction(file: &[u8], c: Cursor) -> Result<(Instruction, Cursor), Refusal>
    ensures { as_step result ≡ instruction_at file.now c }
{
    let Some((opcode, addressing)) = read_byte(file, c) else {
        return Err(Refusal::ended(2, c));
    };
    if !is_opcode(opcode) {
        return Err(Refusal::BadOpcode {
            place: c.at,
            opcode,
        });
    }
    let Some((b, next)) = read_byte(file, addressing) else {
        return Err(Refusal::ended(2, addressing));
    };
    read_operands(file, opcode, addressing.at, b, next)
}
