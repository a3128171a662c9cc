// One row, and one loop for every run of rows of one kind.
ghost use Rattle.std.specs.Prelude.{◌≡◌, ◌+◌, ◌^◌, ◌≤◌, ◌<◌, length};
ghost use Rattle.format.specs.Reading.{many};
ghost use Rattle.format.specs.Views.{maybe};
ghost use Rattle.law_format.specs.Loops.{leading, Whole};
ghost use Rattle.format.specs.WellFormed.{instruction_from};
ghost use Rattle.format.specs.Words.{flatten};
ghost use Rattle.write_lines.specs.Lines.{first_wide};
ghost use Rattle.table_rows.specs.Rows.{row_from};
ghost use Rattle.write_measure.specs.Measured.{row_lines, measured, size_read, Grows};
ghost use Rattle.write_measure.specs.Rows.{section_of, code_in, parts_in, SizeIs};

use crate::Measured;
use format::refusal::Refusal;
use format::types::File;
use rows::Kind;
use table_code::instruction_from;
use table_data::item_there;
use table_handlers::case_there;
use table_names::{export_there, function_there};
use table_rows::row_width;
use table_types::type_there;
use write_code::size::size_there;
use write_lines::length::{case_len, export_len, function_len, item_len, type_len};
use write_lines::wide::{wide_case, wide_export, wide_instruction, wide_item, wide_type};

// What is measured of a row: the first operand that no form holds, and where there is none, how long its line is.
#[derive(Clone, Copy)]
struct RowSize {
    wide: Option<i32>,
    len: usize,
}

fn section_of(kind: Kind) -> u8
    ensures { result ≡ section_of kind }
{
    match kind {
        Kind::Code => 2,
        Kind::Types => 3,
        Kind::Items => 4,
        Kind::Exports => 6,
        Kind::Functions => 7,
        Kind::Cases => 8,
    }
}

#[tactic(auto, using(write_lines::proofs::Forms::wide_none))]
fn wide_code(words: &[i32], w: usize) -> Option<i32>
    ensures { maybe result ≡ first_wide (code_in (instruction_from words.now w)) }
{
    wide_instruction(instruction_from(words, w)?)
}

// Where no operand is wide, no record is built.
fn code_size(words: &[i32], w: usize) -> RowSize
    requires { Whole (instruction_from words.now w) }
    ensures { SizeIs (code_in (instruction_from words.now w)) result }
{
    let len = size_there(words, w);
    if len == 0 {
        return RowSize {
            wide: wide_code(words, w),
            len,
        };
    }
    RowSize { wide: None, len }
}

// A row that is known to be good: names are not looked at again, nor the ones of a map counted.
fn row_size(file: File, words: &[i32], kind: Kind, w: usize) -> RowSize
    requires { Whole (row_from file.bytes.now words.now kind w) }
    ensures { SizeIs (parts_in file.entry.bytes.now (row_from file.entry.bytes.now words.now kind w)) result }
{
    match kind {
        Kind::Code => code_size(words, w),
        Kind::Types => {
            let t = type_there(words, w);
            RowSize {
                wide: wide_type(t),
                len: type_len(file, t),
            }
        }
        Kind::Items => {
            let d = item_there(words, w);
            RowSize {
                wide: wide_item(d),
                len: item_len(file, d),
            }
        }
        Kind::Exports => {
            let e = export_there(words, w);
            RowSize {
                wide: wide_export(e),
                len: export_len(file, e),
            }
        }
        Kind::Functions => RowSize {
            wide: None,
            len: function_len(file, function_there(words, w)),
        },
        Kind::Cases => {
            let c = case_there(words, w);
            RowSize {
                wide: wide_case(c),
                len: case_len(file, c),
            }
        }
    }
}

#[tactic(auto, using(crate::proofs::Sizes::measuring, crate::proofs::Rowed::turn_whole, crate::proofs::Rowed::turn_limit, crate::proofs::Rowed::row_stops, crate::proofs::Rowed::row_turn, crate::proofs::Sizes::done))]
pub fn measure_rows(
    file: File,
    words: &[i32],
    kind: Kind,
    n: usize,
    from: Measured,
) -> Result<Measured, Refusal>
    requires { (from.size < 2 ^ 62) × Whole (many (row_from file.bytes.now words.now kind) n from.next) }
    ensures { (size_read result ≡ measured from.size from.next (flatten (row_lines file.entry.bytes.now) (leading (row_from file.entry.bytes.now words.now kind) n from.next))) × Grows from.size from.next result }
{
    let width = row_width(kind);
    let mut done = from;
    for _ in 0..n {
        let row = row_size(file, words, kind, done.next);
        if let Some(value) = row.wide {
            return Err(Refusal::WideOperand {
                section: section_of(kind),
                place: done.next,
                value,
            });
        }
        done.size += row.len;
        done.next += width;
    }
    Ok(done)
}
