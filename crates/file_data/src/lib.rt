// 4, data: an item's count and offset, then its kind, then its value, which is passed over.
#![tactic(auto)]

pub mod skip;

ghost use Rattle.std.specs.Prelude.{◌≡◌, ◌-◌, ◌/◌, ◌≤◌, ◌<◌, ◌^◌, length, IfOk};
ghost use Rattle.law_format.specs.Loops.{end_of};
ghost use Rattle.format.specs.Records.{shape_of, elements_of, length_of};
ghost use Rattle.format.specs.Sections.{elements_at, offset_at, pass_over, item_of, value_at, coded_at, item_at};
ghost use Rattle.law_format.specs.Views.{as_step, as_end};
ghost use Rattle.file_data.specs.View.{item_read};
ghost use Rattle.law_format.specs.Passed.{pass_words};

use file_pieces::{read_count, span_of};
use format::module::{DataItem, DataKind, Shape};
use format::refusal::Refusal;
use format::types::{Cursor, File, Part, Span};
use reader::{read_byte, read_operand, read_span};
use values::module::shape_of;

// The count of the code byte's low half, or the operand where that is 0. The second clause hands on what an operand can be.
#[tactic(auto, using(crate::proofs::Values::low_four, law_format::proofs::Values::elements_small), unfolding(format::specs::Sections::elements_at))]
pub fn read_elements(file: &[u8], code: u8, c: Cursor) -> Result<(usize, Cursor), Refusal>
    ensures answer { as_step result ≡ elements_at file.now code c }
    ensures small { IfOk result (λ r. r.0 < 2 ^ 31) }
{
    let inline = code & 0x0F;
    if inline == 0 {
        return read_count(file, 4, c);
    }
    Ok((inline as usize, c))
}

#[tactic(auto, unfolding(format::specs::Sections::placed_in, format::specs::Sections::offset_at))]
pub fn read_offset(file: &[u8], c: Cursor) -> Result<(i32, Cursor), Refusal>
    ensures { as_step result ≡ offset_at file.now c }
{
    let Some((offset, next)) = read_operand(file, c) else {
        return Err(Refusal::ended(4, c));
    };
    if offset < 0 {
        return Err(Refusal::NegativeOffset {
            place: c.at,
            value: offset,
        });
    }
    Ok((offset, next))
}

// How many whole words are left.
fn whole_words(file: &[u8], c: Cursor) -> usize
    ensures { result ≡ (length file.now - c.at) / 4 }
{
    file.len().saturating_sub(c.at) / 4
}

// n words are passed over, not read one by one: what is left ends at the first that is not whole.
#[tactic(auto, using(law_format::proofs::Passed::words_whole, law_format::proofs::Passed::words_cut), unfolding(law_format::specs::Loops::end_of))]
fn pass_words(file: &[u8], n: usize, c: Cursor) -> Result<Cursor, Refusal>
    ensures { as_end result ≡ end_of (pass_words file.now 4 n c) }
{
    let whole = whole_words(file, c);
    if whole < n {
        return Err(Refusal::Ended {
            section: 4,
            place: c.at + whole * 4,
        });
    }
    Ok(c.past(n * 4))
}

#[tactic(auto, unfolding(law_format::specs::Loops::end_of))]
fn pass_bytes(file: &[u8], n: usize, c: Cursor) -> Result<Cursor, Refusal>
    ensures { as_end result ≡ end_of (pass_over file.now Shape.Bytes n c) }
{
    let Some((_, next)) = read_span(file, n, c) else {
        return Err(Refusal::ended(4, c));
    };
    Ok(next)
}

#[tactic(auto, using(law_format::proofs::Values::length_most), unfolding(law_format::specs::Loops::end_of))]
pub fn pass_value(file: &[u8], kind: DataKind, n: usize, c: Cursor) -> Result<Cursor, Refusal>
    requires { n < 2 ^ 31 }
    ensures { as_end result ≡ end_of (pass_over file.now (shape_of kind) n c) }
{
    match shape_of(kind) {
        Shape::Bytes => pass_bytes(file, n, c),
        Shape::Words(k) => pass_words(file, k * n, c),
        Shape::Single(k) => pass_words(file, k, c),
        Shape::Nothing => Ok(c),
    }
}

// n elements whose value starts at a place of a file that refusal 1 spared, and ends there.
fn item_of(kind: DataKind, offset: i32, n: usize, start: usize) -> DataItem
    requires { (start < 2 ^ 31) × (elements_of (shape_of kind) n < 2 ^ 31) × (length_of (shape_of kind) n < 2 ^ 31) }
    ensures { result ≡ item_of (shape_of kind) kind offset n start }
{
    match shape_of(kind) {
        Shape::Bytes => DataItem {
            kind,
            offset,
            count: n as i32,
            value: span_of(Part { start, len: n }),
        },
        Shape::Words(k) => DataItem {
            kind,
            offset,
            count: n as i32,
            value: span_of(Part {
                start,
                len: k * n * 4,
            }),
        },
        Shape::Single(k) => DataItem {
            kind,
            offset,
            count: 1,
            value: span_of(Part { start, len: k * 4 }),
        },
        Shape::Nothing => DataItem {
            kind,
            offset: 0,
            count: 1,
            value: Span { start: 0, len: 0 },
        },
    }
}

#[tactic(auto, using(law_format::proofs::Values::elements_fit, law_format::proofs::Values::pass_inside, law_format::proofs::Many::ended, law_format::proofs::Many::stopped), unfolding(format::specs::Sections::value_at))]
fn read_value(
    file: File,
    kind: DataKind,
    offset: i32,
    n: usize,
    c: Cursor,
) -> Result<(DataItem, Cursor), Refusal>
    requires { (n < 2 ^ 31) × (c.at ≤ length file.bytes.now) }
    ensures { as_step result ≡ value_at file.entry.bytes.now kind offset n c }
{
    let next = pass_value(file.bytes, kind, n, c)?;
    Ok((item_of(kind, offset, n, c.at), next))
}

// What stands after the code byte, which stands at `place`: count and offset are read before the kind is judged.
#[tactic(auto, using(law_format::proofs::Moves::offset_moves), unfolding(format::specs::Sections::coded_at))]
fn read_coded(file: File, place: usize, code: u8, c: Cursor) -> Result<(DataItem, Cursor), Refusal>
    ensures { as_step result ≡ coded_at file.entry.bytes.now place code c }
{
    let (count, d) = read_elements(file.bytes, code, c)?;
    let (offset, e) = read_offset(file.bytes, d)?;
    let nibble = code >> 4;
    let Ok(kind) = DataKind::try_from(nibble) else {
        return Err(Refusal::BadKind { place, nibble });
    };
    read_value(file, kind, offset, count, e)
}

// An item, or none at the section's end.
#[tactic(auto, unfolding(format::specs::Sections::item_at))]
pub fn read_item(file: File, c: Cursor) -> Result<(Option<DataItem>, Cursor), Refusal>
    ensures { item_read result ≡ item_at file.entry.bytes.now c }
{
    let Some((code, d)) = read_byte(file.bytes, c) else {
        return Err(Refusal::ended(4, c));
    };
    if code == 0 {
        return Ok((None, d));
    }
    let (item, next) = read_coded(file, c.at, code, d)?;
    Ok((Some(item), next))
}
