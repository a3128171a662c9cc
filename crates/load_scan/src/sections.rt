// Sections whose records have no fixed size: data items, import modules with their functions, handlers with their cases.
ghost use Rattle.std.specs.Prelude.{◌≡◌};
ghost use Rattle.format.specs.Reading.{many};
ghost use Rattle.law_format.specs.Loops.{end_of, tally};
ghost use Rattle.format.specs.Sections.{items_at, closing};
ghost use Rattle.law_format.specs.Views.{as_step, as_end};
ghost use Rattle.rows.specs.Groups.{group_at, group_words, group_weight, flagged_at};
ghost use Rattle.load_scan.specs.Sums.{one, weighed, sums};

use crate::runs::scan_rows;
use file_data::skip::{ItemEnd, skip_item};
use file_handlers::read_head;
use file_pieces::read_count;
use format::module::{CASE_WIDTH, FUNCTION_WIDTH, HANDLER_WIDTH, IMPORT_WIDTH};
use format::refusal::Refusal;
use format::types::{Cursor, File};
use reader::{read_byte, read_operand};
use rows::Kind;
use rows::groups::{Group, flag_of, section_of};

// How many items there are up to the end of the data.
#[tactic(auto, using(crate::proofs::Facts::items_refused, crate::proofs::Facts::items_done, crate::proofs::Facts::items_turned, crate::proofs::Facts::item_onward, law_format::proofs::Scans::plus_zero))]
pub fn scan_items(file: File, c: Cursor) -> Result<(usize, Cursor), Refusal>
    ensures { as_step result ≡ tally one (items_at file.entry.bytes.now c) }
{
    let mut here = c;
    let mut count: usize = 0;
    loop {
        match skip_item(file.bytes, here)? {
            ItemEnd::End { next } => return Ok((count, next)),
            ItemEnd::Item { next } => {
                here = next;
            }
        }
        count += 1;
    }
}

// An import module: a word, and three for each of its functions.
#[tactic(auto, using(crate::proofs::Facts::import_refused, crate::proofs::Facts::import_stops, crate::proofs::Facts::import_ends, crate::proofs::Facts::import_small))]
fn scan_import(file: File, c: Cursor) -> Result<(usize, Cursor), Refusal>
    ensures { as_step result ≡ weighed (group_at file.entry.bytes.now Group.Imports c) }
{
    let (count, d) = read_count(file.bytes, 7, c)?;
    let next = scan_rows(file, Kind::Functions, count, d)?;
    Ok((IMPORT_WIDTH + count * FUNCTION_WIDTH, next))
}

// A handler: five words, and three for each of its cases, the last of which has no name.
#[tactic(auto, using(crate::proofs::Facts::head_refused, crate::proofs::Facts::cases_fit, crate::proofs::Facts::cases_least, crate::proofs::Facts::cases_most, crate::proofs::Facts::cases_stop, crate::proofs::Facts::last_short, crate::proofs::Facts::last_found))]
fn scan_handler(file: File, c: Cursor) -> Result<(usize, Cursor), Refusal>
    ensures { as_step result ≡ weighed (group_at file.entry.bytes.now Group.Handlers c) }
{
    let (handler, d) = read_head(file.bytes, c)?;
    let cases = handler.cases as usize;
    let e = scan_rows(file, Kind::Cases, cases - 1, d)?;
    let Some((_, next)) = read_operand(file.bytes, e) else {
        return Err(Refusal::ended(8, e));
    };
    Ok((HANDLER_WIDTH + cases * CASE_WIDTH, next))
}

fn scan_group(file: File, group: Group, c: Cursor) -> Result<(usize, Cursor), Refusal>
    ensures { as_step result ≡ weighed (group_at file.entry.bytes.now group c) }
{
    match group {
        Group::Imports => scan_import(file, c),
        Group::Handlers => scan_handler(file, c),
    }
}

// The table words of n groups, and where they end.
#[tactic(auto, using(law_format::proofs::Scans::plus_zero, crate::proofs::Facts::group_far, crate::proofs::Facts::groups_turn, crate::proofs::Facts::groups_stop, crate::proofs::Facts::groups_done))]
fn scan_groups(file: File, group: Group, n: usize, c: Cursor) -> Result<(usize, Cursor), Refusal>
    ensures { as_step result ≡ tally group_weight (many (group_at file.entry.bytes.now group) n c) }
{
    let mut here = c;
    let mut words: usize = 0;
    for _ in 0..n {
        let (count, next) = scan_group(file, group, here)?;
        words += count;
        here = next;
    }
    Ok((words, here))
}

// The closing byte of a section.
#[tactic(auto, unfolding(format::specs::Sections::closing, law_format::specs::Loops::end_of))]
fn close(file: &[u8], section: u8, c: Cursor) -> Result<Cursor, Refusal>
    ensures { as_end result ≡ end_of (closing file.now section c) }
{
    let Some((byte, next)) = read_byte(file, c) else {
        return Err(Refusal::ended(section, c));
    };
    if byte != 0 {
        return Err(Refusal::NotClosed {
            section,
            place: c.at,
            byte,
        });
    }
    Ok(next)
}

// How many records a counted section with its closing byte has, only under its flag, and how many table words they need.
#[tactic(auto, using(crate::proofs::Facts::section_not, crate::proofs::Facts::section_count, crate::proofs::Facts::section_groups, crate::proofs::Facts::section_stops, crate::proofs::Facts::section_ends))]
pub fn scan_section(
    file: File,
    group: Group,
    flags: i32,
    c: Cursor,
) -> Result<((usize, usize), Cursor), Refusal>
    ensures { as_step result ≡ sums group_words (flagged_at file.entry.bytes.now group flags c) }
{
    if !flag_of(group, flags) {
        return Ok(((0, 0), c));
    }
    let section = section_of(group);
    let (count, d) = read_count(file.bytes, section, c)?;
    let (words, e) = scan_groups(file, group, count, d)?;
    let next = close(file.bytes, section, e)?;
    Ok(((count, words), next))
}
