// Where an item ends, for the first pass: no record is built.
ghost use Rattle.std.specs.Prelude.{◌≡◌};
ghost use Rattle.law_format.specs.Loops.{end_of};
ghost use Rattle.format.specs.Sections.{coded_at, item_at};
ghost use Rattle.law_format.specs.Views.{as_end};
ghost use Rattle.file_data.specs.View.{item_end, skipped};

use crate::{pass_value, read_elements, read_offset};
use format::module::DataKind;
use format::refusal::Refusal;
use format::types::Cursor;
use reader::read_byte;

// Past an item, or past the section's end.
#[derive(Clone, Copy)]
pub enum ItemEnd {
    Item { next: Cursor },
    End { next: Cursor },
}

// What stands after the code byte, which stands at `place`.
#[tactic(auto, using(crate::proofs::Skipped::value_ends), unfolding(format::specs::Sections::coded_at, law_format::specs::Loops::end_of))]
fn skip_coded(file: &[u8], place: usize, code: u8, c: Cursor) -> Result<Cursor, Refusal>
    ensures { as_end result ≡ end_of (coded_at file.now place code c) }
{
    let (count, d) = read_elements(file, code, c)?;
    let (_, next) = read_offset(file, d)?;
    let nibble = code >> 4;
    let Ok(kind) = DataKind::try_from(nibble) else {
        return Err(Refusal::BadKind { place, nibble });
    };
    pass_value(file, kind, count, next)
}

#[tactic(auto, using(crate::proofs::Skipped::skipped_item, crate::proofs::Skipped::skipped_stops), unfolding(format::specs::Sections::item_at, crate::specs::View::skipped))]
pub fn skip_item(file: &[u8], c: Cursor) -> Result<ItemEnd, Refusal>
    ensures { item_end result ≡ skipped (item_at file.now c) }
{
    let Some((code, d)) = read_byte(file, c) else {
        return Err(Refusal::ended(4, c));
    };
    if code == 0 {
        return Ok(ItemEnd::End { next: d });
    }
    let next = skip_coded(file, c.at, code, d)?;
    Ok(ItemEnd::Item { next })
}
