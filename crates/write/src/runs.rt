// Runs of rows of one kind: one loop for every kind, and before it another for most of the instructions.
ghost use Rattle.format.specs.Reading.{many};
ghost use Rattle.law_format.specs.Loops.{leading, reached, Whole};
ghost use Rattle.format.specs.Words.{flatten};
ghost use Rattle.write_bytes.specs.Laid.{Ready, Laid};
ghost use Rattle.table_rows.specs.Rows.{row_from};
ghost use Rattle.write_measure.specs.Measured.{row_lines};
ghost use Rattle.write_measure.specs.Rows.{parts_in};
ghost use Rattle.write.specs.Wrote.{parts_of, Done};

use format::module::INSTRUCTION_WIDTH;
use format::types::File;
use rows::Kind;
use table_data::item_there;
use table_handlers::case_there;
use table_names::{export_there, function_there};
use table_rows::row_width;
use table_types::type_there;
use write_bytes::{put_case, put_export, put_function, put_item, put_type};
use write_code::bytes::put_there;
use write_code::slots::put_over;

// The word where the next record begins, and the place past what was written.
#[derive(Clone, Copy)]
pub struct Wrote {
    pub next: usize,
    pub place: usize,
}

// A row that is known to be good: names are not looked at again, nor the ones of a map counted.
fn put_from(file: File, words: &[i32], kind: Kind, w: usize, out: &mut [u8], at: usize) -> usize
    requires { Whole (row_from file.bytes.now words.now kind w) × Ready (parts_in file.bytes.now (row_from file.bytes.now words.now kind w)) at out.old }
    ensures { Laid (parts_in file.entry.bytes.now (row_from file.entry.bytes.now words.now kind w)) at out.old result out.new }
{
    match kind {
        Kind::Code => put_there(words, w, out, at),
        Kind::Types => put_type(file, out, at, type_there(words, w)),
        Kind::Items => put_item(file.bytes, out, at, item_there(words, w)),
        Kind::Exports => put_export(file.bytes, out, at, export_there(words, w)),
        Kind::Functions => put_function(file.bytes, out, at, function_there(words, w)),
        Kind::Cases => put_case(file.bytes, out, at, case_there(words, w)),
    }
}

#[tactic(auto, using(crate::proofs::Laying::laying))]
fn write_each(file: File, words: &[i32], kind: Kind, n: usize, from: Wrote, out: &mut [u8]) -> Wrote
    requires { Whole (many (row_from file.bytes.now words.now kind) n from.next) × Ready (parts_of (flatten (row_lines file.bytes.now) (leading (row_from file.bytes.now words.now kind) n from.next))) from.place out.old }
    ensures { Done (parts_of (flatten (row_lines file.entry.bytes.now) (leading (row_from file.entry.bytes.now words.now kind) n from.next))) (reached (row_from file.entry.bytes.now words.now kind) n from.next) from.place out.old result out.new }
{
    let width = row_width(kind);
    let mut done = from;
    for _ in 0..n {
        done.place = put_from(file, words, kind, done.next, out, done.place);
        done.next += width;
    }
    done
}

// Instructions are most of a module: all but the last two of them are written by slots of four bytes.
#[tactic(auto, using(crate::proofs::Laying::laying))]
fn write_code(file: File, words: &[i32], n: usize, from: Wrote, out: &mut [u8]) -> Wrote
    requires { Whole (many (row_from file.bytes.now words.now Kind.Code) n from.next) × Ready (parts_of (flatten (row_lines file.bytes.now) (leading (row_from file.bytes.now words.now Kind.Code) n from.next))) from.place out.old }
    ensures { Done (parts_of (flatten (row_lines file.entry.bytes.now) (leading (row_from file.entry.bytes.now words.now Kind.Code) n from.next))) (reached (row_from file.entry.bytes.now words.now Kind.Code) n from.next) from.place out.old result out.new }
{
    let last = n.min(2);
    let mut done = from;
    for _ in 0..n - last {
        done.place = put_over(words, done.next, out, done.place);
        done.next += INSTRUCTION_WIDTH;
    }
    write_each(file, words, Kind::Code, last, done, out)
}

pub fn write_rows(
    file: File,
    words: &[i32],
    kind: Kind,
    n: usize,
    from: Wrote,
    out: &mut [u8],
) -> Wrote
    requires { Whole (many (row_from file.bytes.now words.now kind) n from.next) × Ready (parts_of (flatten (row_lines file.bytes.now) (leading (row_from file.bytes.now words.now kind) n from.next))) from.place out.old }
    ensures { Done (parts_of (flatten (row_lines file.entry.bytes.now) (leading (row_from file.entry.bytes.now words.now kind) n from.next))) (reached (row_from file.entry.bytes.now words.now kind) n from.next) from.place out.old result out.new }
{
    match kind {
        Kind::Code => write_code(file, words, n, from, out),
        _ => write_each(file, words, kind, n, from, out),
    }
}
