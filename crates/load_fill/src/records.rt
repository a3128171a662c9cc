// One row of each kind, read and stored; where it is refused, nothing.
ghost use Rattle.std.specs.Prelude.{◌≡◌, ◌+◌, ◌≤◌, length};
ghost use Rattle.format.specs.declared.refusal.Refusal.TheVariants.{TooLarge};
ghost use Rattle.format.specs.Sections.{item_at};
ghost use Rattle.law_format.specs.Loops.{some_of};
ghost use Rattle.law_format.specs.Views.{as_step};
ghost use Rattle.rows.specs.Rows.{row_at, row_words};
ghost use Rattle.load_fill.specs.Filled.{One, words_in};

use crate::filled::{Filled, fill_one};
use crate::instructions::fill_instruction;
use file_data::read_item;
use file_handlers::read_case;
use file_names::{read_export, read_function};
use file_types::read_type;
use format::module::DataItem;
use format::refusal::Refusal;
use format::types::{Cursor, File};
use rows::Kind;

// The end of the data is no item.
#[tactic(auto, using(crate::proofs::Facts::item_got, crate::proofs::Facts::item_none, crate::proofs::Facts::item_refused))]
fn read_row_item(file: File, c: Cursor) -> Result<(DataItem, Cursor), Refusal>
    ensures { as_step result ≡ some_of (item_at file.entry.bytes.now) TooLarge c }
{
    let (Some(item), next) = read_item(file, c)? else {
        return Err(Refusal::TooLarge);
    };
    Ok((item, next))
}

pub fn fill_row(file: File, kind: Kind, c: Cursor, words: &mut [i32], w: usize) -> Filled
    requires { w + length (words_in row_words (row_at file.bytes.now kind c)) ≤ length words.old }
    ensures { One row_words (row_at file.entry.bytes.now kind) c w words.old result words.new }
{
    match kind {
        Kind::Code => fill_instruction(file.bytes, c, words, w),
        Kind::Types => fill_one(read_type(file, c), c, words, w),
        Kind::Items => fill_one(read_row_item(file, c), c, words, w),
        Kind::Exports => fill_one(read_export(file, c), c, words, w),
        Kind::Functions => fill_one(read_function(file, c), c, words, w),
        Kind::Cases => fill_one(read_case(file, c), c, words, w),
    }
}
