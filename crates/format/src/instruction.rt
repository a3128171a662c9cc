// instruction.rs: addressing modes, operands and instructions.
ghost use Rattle.std.specs.Prelude.{◌≡◌};
ghost use Rattle.format.specs.Records.{mode_of, mode_number, middle_of, middle_number, addressing_of};
ghost use Rattle.format.specs.Views.{if_ok};

#[derive(Clone, Copy)]
pub enum AddressMode {
    OffsetIndirectMp,
    OffsetIndirectFp,
    Immediate,
    None,
    OffsetDoubleIndirectMp,
    OffsetDoubleIndirectFp,
}

#[derive(Clone, Copy)]
pub enum MiddleMode {
    None,
    SmallImmediate,
    SmallOffsetFp,
    SmallOffsetMp,
}

// A number that says no mode, or no kind of data.
#[derive(Clone, Copy)]
pub struct Unknown;

impl TryFrom<u8> for AddressMode {
    type Error = Unknown;

    ghost try_from_gives = { λ n r. if_ok r ≡ mode_of n };

    fn try_from(n: u8) -> Result<Self, Unknown> {
        match n {
            0 => Ok(AddressMode::OffsetIndirectMp),
            1 => Ok(AddressMode::OffsetIndirectFp),
            2 => Ok(AddressMode::Immediate),
            3 => Ok(AddressMode::None),
            4 => Ok(AddressMode::OffsetDoubleIndirectMp),
            5 => Ok(AddressMode::OffsetDoubleIndirectFp),
            6..=255 => Err(Unknown),
        }
    }
}

impl From<AddressMode> for u8 {
    ghost from_gives = { λ mode n. n ≡ mode_number mode };

    fn from(mode: AddressMode) -> u8 {
        match mode {
            AddressMode::OffsetIndirectMp => 0,
            AddressMode::OffsetIndirectFp => 1,
            AddressMode::Immediate => 2,
            AddressMode::None => 3,
            AddressMode::OffsetDoubleIndirectMp => 4,
            AddressMode::OffsetDoubleIndirectFp => 5,
        }
    }
}

impl TryFrom<u8> for MiddleMode {
    type Error = Unknown;

    ghost try_from_gives = { λ n r. if_ok r ≡ middle_of n };

    fn try_from(n: u8) -> Result<Self, Unknown> {
        match n {
            0 => Ok(MiddleMode::None),
            1 => Ok(MiddleMode::SmallImmediate),
            2 => Ok(MiddleMode::SmallOffsetFp),
            3 => Ok(MiddleMode::SmallOffsetMp),
            4..=255 => Err(Unknown),
        }
    }
}

impl From<MiddleMode> for u8 {
    ghost from_gives = { λ mode n. n ≡ middle_number mode };

    fn from(mode: MiddleMode) -> u8 {
        match mode {
            MiddleMode::None => 0,
            MiddleMode::SmallImmediate => 1,
            MiddleMode::SmallOffsetFp => 2,
            MiddleMode::SmallOffsetMp => 3,
        }
    }
}

#[derive(Clone, Copy)]
pub struct Operand {
    pub mode: AddressMode,
    pub register1: i32,
    pub register2: i32,
}

#[derive(Clone, Copy)]
pub struct MiddleOperand {
    pub mode: MiddleMode,
    pub register1: i32,
}

#[derive(Clone, Copy)]
pub struct Instruction {
    pub opcode: u8,
    pub source: Operand,
    pub middle: MiddleOperand,
    pub destination: Operand,
}

// The addressing byte, taken apart.
#[derive(Clone, Copy)]
pub struct Addressing {
    pub middle: u8,
    pub source: u8,
    pub destination: u8,
}

impl From<u8> for Addressing {
    ghost from_gives = { λ b a. a ≡ addressing_of b };

    fn from(b: u8) -> Addressing {
        Addressing {
            middle: b >> 6,
            source: (b >> 3) & 7,
            destination: b & 7,
        }
    }
}
