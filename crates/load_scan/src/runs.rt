// One loop for every run of records of one kind.
ghost use Rattle.std.specs.Prelude.{◌≡◌};
ghost use Rattle.format.specs.Reading.{many};
ghost use Rattle.law_format.specs.Loops.{end_of};
ghost use Rattle.law_format.specs.Views.{as_end};
ghost use Rattle.rows.specs.Rows.{row_at};

use file_code::skip::skip_instruction;
use file_data::skip::{ItemEnd, skip_item};
use file_handlers::skip_case;
use file_names::{skip_export, skip_function};
use file_types::skip_type;
use format::refusal::Refusal;
use format::types::{Cursor, File};
use rows::Kind;

// Where a row ends: no record is built. The end of the data is no item, so it is refused; by what does not matter, since no run of items is scanned
// here.
#[tactic(auto, using(crate::proofs::Rows::code_end, crate::proofs::Rows::type_end, crate::proofs::Rows::export_end, crate::proofs::Rows::function_end, crate::proofs::Rows::case_end, crate::proofs::Rows::item_end_refused, crate::proofs::Rows::item_end_none, crate::proofs::Rows::item_end_some))]
fn skip_row(file: File, kind: Kind, c: Cursor) -> Result<Cursor, Refusal>
    ensures { as_end result ≡ end_of (row_at file.entry.bytes.now kind c) }
{
    match kind {
        Kind::Code => skip_instruction(file.bytes, c),
        Kind::Types => skip_type(file, c),
        Kind::Items => match skip_item(file.bytes, c)? {
            ItemEnd::End { next: _ } => Err(Refusal::TooLarge),
            ItemEnd::Item { next } => Ok(next),
        },
        Kind::Exports => skip_export(file, c),
        Kind::Functions => skip_function(file, c),
        Kind::Cases => skip_case(file, c),
    }
}

// Where n rows of a kind end.
#[tactic(auto, using(crate::proofs::Facts::pass_turn, crate::proofs::Facts::pass_stop, law_format::proofs::Many::scan_done))]
pub fn scan_rows(file: File, kind: Kind, n: usize, c: Cursor) -> Result<Cursor, Refusal>
    ensures { as_end result ≡ end_of (many (row_at file.entry.bytes.now kind) n c) }
{
    let mut here = c;
    for _ in 0..n {
        here = skip_row(file, kind, here)?;
    }
    Ok(here)
}
