// 1, the header.
#![tactic(auto)]

ghost use Rattle.std.specs.Prelude.{◌≡◌};
ghost use Rattle.format.specs.Sections.{signature_for, header_of, header_at};
ghost use Rattle.law_format.specs.Views.{as_step};

use file_pieces::{read_four, read_sized};
use format::module::{Header, PlacedHeader, SMAGIC, XMAGIC};
use format::refusal::Refusal;
use format::types::{Cursor, File, FourPlaced, Span};
use reader::read_operand;

// Nothing under the plain magic, a counted span under the other.
#[tactic(auto, unfolding(format::specs::Sections::signature_for))]
pub fn read_signature(file: File, magic: i32, c: Cursor) -> Result<(Span, Cursor), Refusal>
    ensures { as_step result ≡ signature_for file.entry.bytes.now magic c }
{
    match magic {
        XMAGIC => Ok((Span { start: 0, len: 0 }, c)),
        SMAGIC => read_sized(file, 1, c),
        value => Err(Refusal::BadMagic { value }),
    }
}

fn header_of(magic: i32, signature: Span, a: FourPlaced, b: FourPlaced) -> PlacedHeader
    ensures { result ≡ header_of magic signature a b }
{
    PlacedHeader {
        header: Header {
            magic,
            signature,
            flags: a.first.value,
            stack_extent: a.second.value,
            code_size: a.third.value,
            data_size: a.fourth.value,
            type_size: b.first.value,
            export_size: b.second.value,
            entry_pc: b.third.value,
            entry_type: b.fourth.value,
        },
        code: a.third,
        types: b.first,
        exports: b.second,
    }
}

#[tactic(auto, unfolding(format::specs::Sections::header_at))]
pub fn read_header(file: File, c: Cursor) -> Result<(PlacedHeader, Cursor), Refusal>
    ensures { as_step result ≡ header_at file.entry.bytes.now c }
{
    let Some((magic, d)) = read_operand(file.bytes, c) else {
        return Err(Refusal::ended(1, c));
    };
    let (signature, e) = read_signature(file, magic, d)?;
    let (a, f) = read_four(file.bytes, 1, e)?;
    let (b, next) = read_four(file.bytes, 1, f)?;
    Ok((header_of(magic, signature, a, b), next))
}
