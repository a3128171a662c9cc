// Import modules with their functions, handlers with their cases, and the sections they make.
ghost use Rattle.format.specs.Reading.{many};
ghost use Rattle.law_format.specs.Loops.{then_place, leading, reached, Whole};
ghost use Rattle.format.specs.WellFormed.{last_from};
ghost use Rattle.format.specs.Words.{flatten};
ghost use Rattle.write_bytes.specs.Laid.{Ready, Laid};
ghost use Rattle.table_groups.specs.Groups.{group_from};
ghost use Rattle.write_measure.specs.Measured.{group_lines, last_lines, lines_in, section_lines};
ghost use Rattle.write_measure.specs.Layout.{SectionIs};
ghost use Rattle.write.specs.Wrote.{parts_of, Done};

use crate::heads::{put_head, put_one};
use crate::runs::{Wrote, write_rows};
use format::module::{CASE_WIDTH, HANDLER_WIDTH, IMPORT_WIDTH};
use format::types::File;
use rows::Kind;
use rows::groups::{Group, flag_of};
use table_handlers::{handler_from, last_from};
use table_names::function_count_from;
use write_pieces::put_byte;

fn write_import(file: File, words: &[i32], from: Wrote, out: &mut [u8]) -> Wrote
    requires { Whole (group_from file.bytes.now words.now Group.Imports from.next) × Ready (parts_of (lines_in (group_lines file.bytes.now) (group_from file.bytes.now words.now Group.Imports from.next))) from.place out.old }
    ensures { Done (parts_of (lines_in (group_lines file.entry.bytes.now) (group_from file.entry.bytes.now words.now Group.Imports from.next))) (then_place from.next (group_from file.entry.bytes.now words.now Group.Imports from.next) (λ next. next)) from.place out.old result out.new }
{
    let Some(count) = function_count_from(words, from.next) else {
        return from;
    };
    let head = Wrote {
        next: from.next + IMPORT_WIDTH,
        place: put_one(out, from.place, words[from.next]),
    };
    write_rows(file, words, Kind::Functions, count, head, out)
}

// The last case of a handler: only its pc is written.
#[tactic(auto, using(write_measure::proofs::Grouped::last_limit))]
fn write_last(words: &[i32], from: Wrote, out: &mut [u8]) -> Wrote
    requires { Whole (last_from words.now from.next) × Ready (parts_of (lines_in last_lines (last_from words.now from.next))) from.place out.old }
    ensures { Done (parts_of (lines_in last_lines (last_from words.now from.next))) (then_place from.next (last_from words.now from.next) (λ next. next)) from.place out.old result out.new }
{
    let Some(last) = last_from(words, from.next) else {
        return from;
    };
    Wrote {
        next: from.next + CASE_WIDTH,
        place: put_one(out, from.place, last.pc),
    }
}

fn write_handler(file: File, words: &[i32], from: Wrote, out: &mut [u8]) -> Wrote
    requires { Whole (group_from file.bytes.now words.now Group.Handlers from.next) × Ready (parts_of (lines_in (group_lines file.bytes.now) (group_from file.bytes.now words.now Group.Handlers from.next))) from.place out.old }
    ensures { Done (parts_of (lines_in (group_lines file.entry.bytes.now) (group_from file.entry.bytes.now words.now Group.Handlers from.next))) (then_place from.next (group_from file.entry.bytes.now words.now Group.Handlers from.next) (λ next. next)) from.place out.old result out.new }
{
    let Some(handler) = handler_from(words, from.next) else {
        return from;
    };
    let cases = handler.cases as usize;
    let head = Wrote {
        next: from.next + HANDLER_WIDTH,
        place: put_head(out, from.place, handler),
    };
    let named = write_rows(file, words, Kind::Cases, cases - 1, head, out);
    write_last(words, named, out)
}

fn write_group(file: File, words: &[i32], group: Group, from: Wrote, out: &mut [u8]) -> Wrote
    requires { Whole (group_from file.bytes.now words.now group from.next) × Ready (parts_of (lines_in (group_lines file.bytes.now) (group_from file.bytes.now words.now group from.next))) from.place out.old }
    ensures { Done (parts_of (lines_in (group_lines file.entry.bytes.now) (group_from file.entry.bytes.now words.now group from.next))) (then_place from.next (group_from file.entry.bytes.now words.now group from.next) (λ next. next)) from.place out.old result out.new }
{
    match group {
        Group::Imports => write_import(file, words, from, out),
        Group::Handlers => write_handler(file, words, from, out),
    }
}

#[tactic(auto, using(crate::proofs::Laying::laying))]
fn write_groups(
    file: File,
    words: &[i32],
    group: Group,
    n: usize,
    from: Wrote,
    out: &mut [u8],
) -> Wrote
    requires { Whole (many (group_from file.bytes.now words.now group) n from.next) × Ready (parts_of (flatten (group_lines file.bytes.now) (leading (group_from file.bytes.now words.now group) n from.next))) from.place out.old }
    ensures { Done (parts_of (flatten (group_lines file.entry.bytes.now) (leading (group_from file.entry.bytes.now words.now group) n from.next))) (reached (group_from file.entry.bytes.now words.now group) n from.next) from.place out.old result out.new }
{
    let mut done = from;
    for _ in 0..n {
        done = write_group(file, words, group, done, out);
    }
    done
}

// Only under its flag: the count, the groups, and a closing zero.
pub fn write_section(
    file: File,
    words: &[i32],
    group: Group,
    flags: i32,
    n: usize,
    from: Wrote,
    out: &mut [u8],
) -> Wrote
    requires { SectionIs file.bytes.now words.now group flags n from.next × Ready (parts_of (section_lines file.bytes.now group flags (leading (group_from file.bytes.now words.now group) n from.next))) from.place out.old }
    ensures { Done (parts_of (section_lines file.entry.bytes.now group flags (leading (group_from file.entry.bytes.now words.now group) n from.next))) (reached (group_from file.entry.bytes.now words.now group) n from.next) from.place out.old result out.new }
{
    if !flag_of(group, flags) {
        return from;
    }
    let counted = Wrote {
        next: from.next,
        place: put_one(out, from.place, n as i32),
    };
    let mut done = write_groups(file, words, group, n, counted, out);
    done.place = put_byte(out, done.place, 0);
    done
}
