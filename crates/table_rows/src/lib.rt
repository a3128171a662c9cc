// Rows of a section of any kind in the table words: one loop that checks n of them.
#![tactic(auto)]

ghost use Rattle.std.specs.Prelude.{◌≡◌};
ghost use Rattle.format.specs.Reading.{many};
ghost use Rattle.law_format.specs.Loops.{end_of};
ghost use Rattle.law_format.specs.Views.{as_end};
ghost use Rattle.table_code.specs.View.{good_end};
ghost use Rattle.table_rows.specs.Rows.{row_width, row_from};

use format::module::{
    CASE_WIDTH, EXPORT_WIDTH, FUNCTION_WIDTH, INSTRUCTION_WIDTH, ITEM_WIDTH, TYPE_WIDTH,
};
use format::refusal::Refusal;
use rows::Kind;
use table_code::good_instruction;
use table_data::item_from;
use table_handlers::case_from;
use table_names::{export_from, function_from};
use table_types::type_from;

pub fn row_width(kind: Kind) -> usize
    ensures { result ≡ row_width kind }
{
    match kind {
        Kind::Code => INSTRUCTION_WIDTH,
        Kind::Types => TYPE_WIDTH,
        Kind::Items => ITEM_WIDTH,
        Kind::Exports => EXPORT_WIDTH,
        Kind::Functions => FUNCTION_WIDTH,
        Kind::Cases => CASE_WIDTH,
    }
}

// Whether a row is good; an instruction, the most frequent one, is not built for it.
#[tactic(auto, unfolding(law_format::specs::Loops::end_of))]
fn good_row(file: &[u8], words: &[i32], kind: Kind, w: usize) -> bool
    ensures { good_end (row_width kind) w result ≡ end_of (row_from file.now words.now kind w) }
{
    match kind {
        Kind::Code => good_instruction(words, w),
        Kind::Types => type_from(file, words, w).is_some(),
        Kind::Items => item_from(file, words, w).is_some(),
        Kind::Exports => export_from(file, words, w).is_some(),
        Kind::Functions => function_from(file, words, w).is_some(),
        Kind::Cases => case_from(file, words, w).is_some(),
    }
}

// Where n rows of a kind end.
#[tactic(auto, using(crate::proofs::Reach::row_inside, crate::proofs::Turns::pass_turn, crate::proofs::Turns::pass_bad, crate::proofs::Turns::pass_done))]
pub fn check_rows(
    file: &[u8],
    words: &[i32],
    kind: Kind,
    n: usize,
    w: usize,
) -> Result<usize, Refusal>
    ensures { as_end result ≡ end_of (many (row_from file.now words.now kind) n w) }
{
    let width = row_width(kind);
    let mut here = w;
    for _ in 0..n {
        if !good_row(file, words, kind, here) {
            return Err(Refusal::NotWellFormed { place: here });
        }
        here += width;
    }
    Ok(here)
}
