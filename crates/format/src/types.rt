// types.rs: the small values that records are made of. A `Vec` or a `String` of the Rust is a span of the lent file.
ghost use Rattle.std.specs.Prelude.{◌≡◌, ◌+◌, ◌^◌, ◌<◌, ◌≤◌, length, IfOk, IfErr};
ghost use Rattle.format.specs.Limits.{size_limit};
ghost use Rattle.format.specs.declared.refusal.Refusal.TheVariants.{TooLarge};
ghost use Rattle.format.specs.Reading as Spec;

use crate::module::FILE_LIMIT;
use crate::refusal::Refusal;

// A place of the file, by value. Cursors are made here only.
#[derive(Clone, Copy)]
pub struct Cursor {
    pub at: usize,
}

impl Cursor {
    pub fn front() -> Cursor
        ensures { result ≡ Spec.front }
    {
        Cursor { at: 0 }
    }

    pub fn past(self, count: usize) -> Cursor
        requires { self.at + count < 2 ^ 64 }
        ensures { result ≡ Spec.past self count }
    {
        Cursor {
            at: self.at + count,
        }
    }
}

// A lent file that refusal 1 spared.
#[derive(Clone, Copy)]
pub struct File<'a> {
    pub bytes: &'a [u8],
    ghost spared: { length bytes.now ≤ size_limit },
}

impl<'a> File<'a> {
    // Refusal 1.
    pub fn new(bytes: &'a [u8]) -> Result<File<'a>, Refusal>
        ensures ok { IfOk result (λ f. (f.bytes ≡ bytes.entry) × (length bytes.entry.now ≤ size_limit)) }
        ensures err { IfErr result (λ why. (why ≡ TooLarge) × (size_limit < length bytes.entry.now)) }
    {
        if FILE_LIMIT < bytes.len() {
            return Err(Refusal::TooLarge);
        }
        Ok(File { bytes })
    }
}

// A part of the file. Both numbers are signed, as the table words are: any two may be handed in.
#[derive(Clone, Copy, PartialEq, Eq)]
pub struct Span {
    pub start: i32,
    pub len: i32,
}

// A part of the file that was read, whether or not table words can hold its numbers.
#[derive(Clone, Copy)]
pub struct Part {
    pub start: usize,
    pub len: usize,
}

// An operand's value, and where the operand starts.
#[derive(Clone, Copy)]
pub struct Placed {
    pub value: i32,
    pub place: usize,
}

// Four operands that follow one another.
#[derive(Clone, Copy)]
pub struct FourPlaced {
    pub first: Placed,
    pub second: Placed,
    pub third: Placed,
    pub fourth: Placed,
}

#[derive(Clone, Copy)]
pub struct TypeDescriptor {
    pub id: i32,
    pub size: i32,
    pub map: Span,
    pub pointers: i32,
}
