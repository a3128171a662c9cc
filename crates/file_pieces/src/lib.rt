// Counts, runs of operands, and counted spans: the pieces that records are made of.
#![tactic(auto)]

ghost use Rattle.std.specs.Prelude.{◌≡◌, ◌<◌, ◌^◌};
ghost use Rattle.format.specs.Operands.{span_of};
ghost use Rattle.format.specs.Sections as Spec;
ghost use Rattle.law_format.specs.Views.{as_step};

use bits::as_natural;
use format::refusal::Refusal;
use format::types::{Cursor, File, FourPlaced, Part, Placed, Span};
use reader::{read_operand, read_span};

// A size as a count: refusal 4 where it is negative. The cursor stays.
pub fn counted(section: u8, size: Placed, c: Cursor) -> Result<(usize, Cursor), Refusal>
    ensures { as_step result ≡ Spec.counted section size c }
{
    let value = size.value;
    let Some(count) = as_natural(value) else {
        return Err(Refusal::NegativeCount {
            section,
            place: size.place,
            value,
        });
    };
    Ok((count, c))
}

// An operand and its place.
#[tactic(auto, unfolding(format::specs::Sections::placed_in))]
pub fn read_placed(file: &[u8], section: u8, c: Cursor) -> Result<(Placed, Cursor), Refusal>
    ensures { as_step result ≡ Spec.placed_in file.now section c }
{
    let Some((value, next)) = read_operand(file, c) else {
        return Err(Refusal::ended(section, c));
    };
    Ok((Placed { value, place: c.at }, next))
}

#[tactic(auto, unfolding(format::specs::Sections::count_in))]
pub fn read_count(file: &[u8], section: u8, c: Cursor) -> Result<(usize, Cursor), Refusal>
    ensures { as_step result ≡ Spec.count_in file.now section c }
{
    let (placed, next) = read_placed(file, section, c)?;
    counted(section, placed, next)
}

// Four operands, each with its place.
#[tactic(auto, unfolding(format::specs::Sections::four_in))]
pub fn read_four(file: &[u8], section: u8, c: Cursor) -> Result<(FourPlaced, Cursor), Refusal>
    ensures { as_step result ≡ Spec.four_in file.now section c }
{
    let (first, d) = read_placed(file, section, c)?;
    let (second, e) = read_placed(file, section, d)?;
    let (third, f) = read_placed(file, section, e)?;
    let (fourth, next) = read_placed(file, section, f)?;
    Ok((
        FourPlaced {
            first,
            second,
            third,
            fourth,
        },
        next,
    ))
}

// A part of a file that refusal 1 spared, as table words hold it.
pub fn span_of(part: Part) -> Span
    requires { (part.start < 2 ^ 31) × (part.len < 2 ^ 31) }
    ensures { result ≡ span_of part.start part.len }
{
    Span {
        start: part.start as i32,
        len: part.len as i32,
    }
}

// A length, and that many bytes.
#[tactic(auto, using(law_format::proofs::Pieces::span_inside), unfolding(format::specs::Sections::sized_in))]
pub fn read_sized(file: File, section: u8, c: Cursor) -> Result<(Span, Cursor), Refusal>
    ensures { as_step result ≡ Spec.sized_in file.entry.bytes.now section c }
{
    let (count, d) = read_count(file.bytes, section, c)?;
    let Some((part, next)) = read_span(file.bytes, count, d) else {
        return Err(Refusal::ended(section, d));
    };
    Ok((span_of(part), next))
}
