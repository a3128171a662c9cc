// reader.rs: a byte, an operand, a word, a name or a span at a cursor of the lent file.
#![tactic(auto)]

ghost use Rattle.std.specs.Prelude.{◌≡◌};
ghost use Rattle.format.specs.Operands.{byte_at, operand_at, word_at, name_at, span_at};
ghost use Rattle.law_format.specs.Views.{as_read, part_read};

use bits::{be16, be32, signed};
use format::types::{Cursor, Part};

// What stands at a cursor, and the place after it; none where the file ends inside it.
#[tactic(auto, using(law_format::proofs::OperandCases::byte_there, law_format::proofs::OperandCases::byte_past), unfolding(format::specs::Operands::byte_at))]
pub fn read_byte(file: &[u8], c: Cursor) -> Option<(u8, Cursor)>
    ensures { as_read result ≡ byte_at file.now c }
{
    let byte = file.get(c.at)?;
    Some((*byte, c.past(1)))
}

// The top two bits of the first byte choose the form.
#[tactic(auto, using(law_format::proofs::OperandCases::operand_past, law_format::proofs::OperandCases::operand_low, law_format::proofs::OperandCases::operand_minus, law_format::proofs::OperandCases::operand_two, law_format::proofs::OperandCases::operand_two_short, law_format::proofs::OperandCases::operand_four, law_format::proofs::OperandCases::operand_four_short, crate::proofs::Facts::low_six, crate::proofs::Facts::less_128, crate::proofs::Facts::low, bits::proofs::Signs::kept))]
pub fn read_operand(file: &[u8], c: Cursor) -> Option<(i32, Cursor)>
    ensures { as_read result ≡ operand_at file.now c }
{
    let at = c.at;
    if file.len() <= at {
        return None;
    }
    let left = file.len() - at;
    let b = file[at];
    match b {
        0..=63 => Some((b as i32, c.past(1))),
        64..=127 => Some((signed(0x40, b as u32), c.past(1))),
        128..=191 => {
            if left < 2 {
                return None;
            }
            Some((signed(0x2000, be16(b & 0x3F, file[at + 1])), c.past(2)))
        }
        192..=255 => {
            if left < 4 {
                return None;
            }
            Some((
                signed(
                    0x2000_0000,
                    be32(b & 0x3F, file[at + 1], file[at + 2], file[at + 3]),
                ),
                c.past(4),
            ))
        }
    }
}

#[tactic(auto, using(law_format::proofs::OperandCases::word_whole, law_format::proofs::OperandCases::word_short, bits::proofs::Signs::kept, bits::proofs::Signs::word_signed))]
pub fn read_word(file: &[u8], c: Cursor) -> Option<(i32, Cursor)>
    ensures { as_read result ≡ word_at file.now c }
{
    let at = c.at;
    if file.len() <= at {
        return None;
    }
    if file.len() - at < 4 {
        return None;
    }
    let bits = be32(file[at], file[at + 1], file[at + 2], file[at + 3]);
    Some((bits.cast_signed(), c.past(4)))
}

// Up to the first zero byte.
pub fn read_name(file: &[u8], c: Cursor) -> Option<(Part, Cursor)>
    ensures { part_read result ≡ name_at file.now c }
{
    let start = c.at;
    for at in start..file.len() {
        if file[at] == 0 {
            let len = at - start;
            return Some((Part { start, len }, c.past(len + 1)));
        }
    }
    None
}

#[tactic(auto, using(law_format::proofs::OperandCases::span_whole, law_format::proofs::OperandCases::span_short))]
pub fn read_span(file: &[u8], len: usize, c: Cursor) -> Option<(Part, Cursor)>
    ensures { part_read result ≡ span_at file.now len c }
{
    let start = c.at;
    if file.len() < start {
        return None;
    }
    if file.len() - start < len {
        return None;
    }
    Some((Part { start, len }, c.past(len)))
}
