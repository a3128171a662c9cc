// Import modules with their functions, handlers with their cases.
ghost use Rattle.std.specs.Prelude.{◌≡◌, ◌^◌, ◌<◌};
ghost use Rattle.format.specs.Reading.{many};
ghost use Rattle.law_format.specs.Loops.{leading, Whole};
ghost use Rattle.format.specs.WellFormed.{last_from};
ghost use Rattle.format.specs.Words.{flatten};
ghost use Rattle.table_groups.specs.Groups.{group_from};
ghost use Rattle.write_measure.specs.Measured.{group_lines, last_lines, lines_in, measured, size_read, Grows};

use crate::Measured;
use crate::heads::{measure_head, measure_one};
use crate::runs::measure_rows;
use format::module::{CASE_WIDTH, IMPORT_WIDTH};
use format::refusal::Refusal;
use format::types::File;
use rows::Kind;
use rows::groups::Group;
use table_handlers::{handler_from, last_from};
use table_names::function_count_from;

fn measure_import(file: File, words: &[i32], from: Measured) -> Result<Measured, Refusal>
    requires { (from.size < 2 ^ 61) × Whole (group_from file.bytes.now words.now Group.Imports from.next) }
    ensures { (size_read result ≡ measured from.size from.next (lines_in (group_lines file.entry.bytes.now) (group_from file.entry.bytes.now words.now Group.Imports from.next))) × Grows from.size from.next result }
{
    let Some(count) = function_count_from(words, from.next) else {
        return Ok(from);
    };
    let head = measure_one(words[from.next], 7, IMPORT_WIDTH, from)?;
    measure_rows(file, words, Kind::Functions, count, head)
}

// The last case of a handler: only its pc is written.
fn measure_last(words: &[i32], from: Measured) -> Result<Measured, Refusal>
    requires { (from.size < 2 ^ 62) × Whole (last_from words.now from.next) }
    ensures { (size_read result ≡ measured from.size from.next (lines_in last_lines (last_from words.now from.next))) × Grows from.size from.next result }
{
    let Some(last) = last_from(words, from.next) else {
        return Ok(from);
    };
    measure_one(last.pc, 8, CASE_WIDTH, from)
}

fn measure_handler(file: File, words: &[i32], from: Measured) -> Result<Measured, Refusal>
    requires { (from.size < 2 ^ 61) × Whole (group_from file.bytes.now words.now Group.Handlers from.next) }
    ensures { (size_read result ≡ measured from.size from.next (lines_in (group_lines file.entry.bytes.now) (group_from file.entry.bytes.now words.now Group.Handlers from.next))) × Grows from.size from.next result }
{
    let Some(handler) = handler_from(words, from.next) else {
        return Ok(from);
    };
    let head = measure_head(handler, from)?;
    let cases = handler.cases as usize;
    let named = measure_rows(file, words, Kind::Cases, cases - 1, head)?;
    measure_last(words, named)
}

fn measure_group(
    file: File,
    words: &[i32],
    group: Group,
    from: Measured,
) -> Result<Measured, Refusal>
    requires { (from.size < 2 ^ 61) × Whole (group_from file.bytes.now words.now group from.next) }
    ensures { (size_read result ≡ measured from.size from.next (lines_in (group_lines file.entry.bytes.now) (group_from file.entry.bytes.now words.now group from.next))) × Grows from.size from.next result }
{
    match group {
        Group::Imports => measure_import(file, words, from),
        Group::Handlers => measure_handler(file, words, from),
    }
}

#[tactic(auto, using(crate::proofs::Sizes::measuring, crate::proofs::Sizes::done))]
pub fn measure_groups(
    file: File,
    words: &[i32],
    group: Group,
    n: usize,
    from: Measured,
) -> Result<Measured, Refusal>
    requires { (from.size < 2 ^ 60) × Whole (many (group_from file.bytes.now words.now group) n from.next) }
    ensures { (size_read result ≡ measured from.size from.next (flatten (group_lines file.entry.bytes.now) (leading (group_from file.entry.bytes.now words.now group) n from.next))) × Grows from.size from.next result }
{
    let mut done = from;
    for _ in 0..n {
        done = measure_group(file, words, group, done)?;
    }
    Ok(done)
}
