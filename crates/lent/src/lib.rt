// reader.rs: the lent file and a place of it in one struct. Each method takes it apart and calls the function over the
// slice and the cursor, which has the work and the proof of it.
#![tactic(auto)]

ghost use Rattle.std.specs.Prelude.{◌≡◌, ◌-◌, length};
ghost use Rattle.format.specs.Reading.{front};
ghost use Rattle.format.specs.Operands.{byte_at, operand_at, word_at, name_at, span_at};
ghost use Rattle.law_format.specs.Views.{as_read, part_read};

use format::types::{Cursor, Part};
use reader::{read_byte, read_name, read_operand, read_span, read_word};

#[derive(Clone, Copy)]
pub struct Reader<'a> {
    pub file: &'a [u8],
    pub at: Cursor,
}

// How many bytes follow a place: none from the file's end on.
pub fn left_at(file: &[u8], at: Cursor) -> usize
    ensures { result ≡ length file.now - at.at }
{
    file.len().saturating_sub(at.at)
}

impl<'a> Reader<'a> {
    // At the file's first place.
    pub fn new(file: &'a [u8]) -> Reader<'a>
        ensures { (result.file ≡ file.entry) × (result.at ≡ front) }
    {
        Reader {
            file,
            at: Cursor::front(),
        }
    }

    // The same file, at another place: where a read's answer says that the next one starts.
    pub fn moved(self, next: Cursor) -> Reader<'a>
        ensures { (result.file ≡ self.entry.file) × (result.at ≡ next) }
    {
        Reader {
            file: self.file,
            at: next,
        }
    }

    pub fn position(self) -> usize
        ensures { result ≡ self.entry.at.at }
    {
        self.at.at
    }

    pub fn left(self) -> usize
        ensures { result ≡ length self.entry.file.now - self.entry.at.at }
    {
        left_at(self.file, self.at)
    }

    pub fn byte(self) -> Option<(u8, Cursor)>
        ensures { as_read result ≡ byte_at self.entry.file.now self.entry.at }
    {
        read_byte(self.file, self.at)
    }

    pub fn operand(self) -> Option<(i32, Cursor)>
        ensures { as_read result ≡ operand_at self.entry.file.now self.entry.at }
    {
        read_operand(self.file, self.at)
    }

    pub fn word(self) -> Option<(i32, Cursor)>
        ensures { as_read result ≡ word_at self.entry.file.now self.entry.at }
    {
        read_word(self.file, self.at)
    }

    pub fn name(self) -> Option<(Part, Cursor)>
        ensures { part_read result ≡ name_at self.entry.file.now self.entry.at }
    {
        read_name(self.file, self.at)
    }

    pub fn span(self, len: usize) -> Option<(Part, Cursor)>
        ensures { part_read result ≡ span_at self.entry.file.now len self.entry.at }
    {
        read_span(self.file, len, self.at)
    }
}

// The operand that a file begins with, its magic where it is a module.
pub fn first_operand(file: &[u8]) -> Option<(i32, Cursor)>
    ensures { as_read result ≡ operand_at file.now front }
{
    Reader::new(file).operand()
}
