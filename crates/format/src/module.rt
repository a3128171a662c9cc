// module.rs: the header, the records of each section, and what comes beside the table words.
ghost use Rattle.std.specs.Prelude.{◌≡◌};
ghost use Rattle.format.specs.Records.{kind_of, kind_number};
ghost use Rattle.format.specs.Views.{if_ok};

use crate::instruction::Unknown;
use crate::types::{Placed, Span};

pub const XMAGIC: i32 = 0x0C8030;

pub const SMAGIC: i32 = 0x0E1722;

// Refusal 1's limit on a file, and how many lent words are looked at.
pub const FILE_LIMIT: usize = 16_777_216;

pub const WORD_LIMIT: usize = 75_497_472;

// How many table words a record has; an import module and a handler those before their functions and cases.
pub const INSTRUCTION_WIDTH: usize = 9;

pub const TYPE_WIDTH: usize = 5;

pub const ITEM_WIDTH: usize = 5;

pub const EXPORT_WIDTH: usize = 5;

pub const IMPORT_WIDTH: usize = 1;

pub const FUNCTION_WIDTH: usize = 3;

pub const HANDLER_WIDTH: usize = 5;

pub const CASE_WIDTH: usize = 3;

#[derive(Clone, Copy)]
pub struct Header {
    pub magic: i32,
    pub signature: Span,
    pub flags: i32,
    pub stack_extent: i32,
    pub code_size: i32,
    pub data_size: i32,
    pub type_size: i32,
    pub export_size: i32,
    pub entry_pc: i32,
    pub entry_type: i32,
}

// The header, with the three sizes that are refused only when their own section begins.
#[derive(Clone, Copy)]
pub struct PlacedHeader {
    pub header: Header,
    pub code: Placed,
    pub types: Placed,
    pub exports: Placed,
}

// The runtime flags that say something here.
#[derive(Clone, Copy)]
pub enum Flag {
    MustCompile,
    DontCompile,
    HasHandler,
    HasImport,
}

#[derive(Clone, Copy)]
pub enum DataKind {
    Bytes,
    Words,
    String,
    Reals,
    Array,
    SetArray,
    Restore,
    Bigs,
}

impl TryFrom<u8> for DataKind {
    type Error = Unknown;

    ghost try_from_gives = { λ n r. if_ok r ≡ kind_of n };

    fn try_from(n: u8) -> Result<Self, Unknown> {
        match n {
            0 => Err(Unknown),
            1 => Ok(DataKind::Bytes),
            2 => Ok(DataKind::Words),
            3 => Ok(DataKind::String),
            4 => Ok(DataKind::Reals),
            5 => Ok(DataKind::Array),
            6 => Ok(DataKind::SetArray),
            7 => Ok(DataKind::Restore),
            8 => Ok(DataKind::Bigs),
            9..=255 => Err(Unknown),
        }
    }
}

impl From<DataKind> for u8 {
    ghost from_gives = { λ kind n. n ≡ kind_number kind };

    fn from(kind: DataKind) -> u8 {
        match kind {
            DataKind::Bytes => 1,
            DataKind::Words => 2,
            DataKind::String => 3,
            DataKind::Reals => 4,
            DataKind::Array => 5,
            DataKind::SetArray => 6,
            DataKind::Restore => 7,
            DataKind::Bigs => 8,
        }
    }
}

// What the value of a kind is: counted bytes, counted elements of so many words, one thing of so many words, or nothing.
#[derive(Clone, Copy)]
pub enum Shape {
    Bytes,
    Words(usize),
    Single(usize),
    Nothing,
}

#[derive(Clone, Copy)]
pub struct DataItem {
    pub kind: DataKind,
    pub offset: i32,
    pub count: i32,
    pub value: Span,
}

#[derive(Clone, Copy)]
pub struct ExportEntry {
    pub pc: i32,
    pub frame: i32,
    pub signature: i32,
    pub name: Span,
}

#[derive(Clone, Copy)]
pub struct ImportEntry {
    pub signature: i32,
    pub name: Span,
}

#[derive(Clone, Copy)]
pub struct Handler {
    pub offset: i32,
    pub begin: i32,
    pub end: i32,
    pub descriptor: i32,
    pub cases: i32,
}

#[derive(Clone, Copy)]
pub struct ExceptionCase {
    pub name: Span,
    pub pc: i32,
}

// How many instructions and types a module has: what a pc, a frame type and a handler are held against.
#[derive(Clone, Copy)]
pub struct Sizes {
    pub code: usize,
    pub types: usize,
}

// What comes beside the words.
#[derive(Clone, Copy)]
pub struct Module {
    pub header: Header,
    pub name: Span,
    pub items: i32,
    pub imports: i32,
    pub handlers: i32,
}

// What an accepted load answers: what comes beside the words, how many bytes of the file were used, how many words were needed.
#[derive(Clone, Copy)]
pub struct Loaded {
    pub module: Module,
    pub used: usize,
    pub needed: usize,
}
