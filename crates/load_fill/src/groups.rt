// Import modules with their functions, handlers with their cases.
ghost use Rattle.std.specs.Prelude.{◌≡◌, ◌+◌, ◌≤◌, length};
ghost use Rattle.format.specs.Reading.{many};
ghost use Rattle.law_format.specs.Loops.{leading, Whole};
ghost use Rattle.law_format.specs.Views.{as_step};
ghost use Rattle.format.specs.Sections.{last_at};
ghost use Rattle.format.specs.Words.{flatten};
ghost use Rattle.rows.specs.Groups.{group_at, group_words, flagged_at};
ghost use Rattle.load_fill.specs.Filled.{Ready, One, Groups, list_in};

use crate::filled::{Filled, fill_one};
use crate::runs::fill_rows;
use file_handlers::read_head;
use file_pieces::read_count;
use format::module::ExceptionCase;
use format::put::put_all;
use format::refusal::Refusal;
use format::types::{Cursor, File, Span};
use load_store::Store;
use reader::read_operand;
use rows::Kind;
use rows::groups::{Group, flag_of, section_of};

fn fill_import(file: File, c: Cursor, words: &mut [i32], w: usize) -> Filled
    requires { Ready group_words (group_at file.bytes.now Group.Imports c) w words.old }
    ensures { One group_words (group_at file.entry.bytes.now Group.Imports) c w words.old result words.new }
{
    let Ok((count, next)) = read_count(file.bytes, 7, c) else {
        return Filled { next: c, place: w };
    };
    let place = put_all(words, w, [count as i32]);
    fill_rows(file, Kind::Functions, count, next, words, place)
}

// The last case: no name, only a pc.
#[tactic(auto, unfolding(format::specs::Sections::last_at))]
fn read_last(file: &[u8], c: Cursor) -> Result<(ExceptionCase, Cursor), Refusal>
    ensures { as_step result ≡ last_at file.now c }
{
    let Some((pc, next)) = read_operand(file, c) else {
        return Err(Refusal::ended(8, c));
    };
    let name = Span { start: 0, len: 0 };
    Ok((ExceptionCase { name, pc }, next))
}

fn fill_handler(file: File, c: Cursor, words: &mut [i32], w: usize) -> Filled
    requires { Ready group_words (group_at file.bytes.now Group.Handlers c) w words.old }
    ensures { One group_words (group_at file.entry.bytes.now Group.Handlers) c w words.old result words.new }
{
    let Ok((handler, next)) = read_head(file.bytes, c) else {
        return Filled { next: c, place: w };
    };
    let cases = handler.cases as usize;
    let place = handler.store(words, w);
    let named = fill_rows(file, Kind::Cases, cases - 1, next, words, place);
    fill_one(
        read_last(file.bytes, named.next),
        named.next,
        words,
        named.place,
    )
}

fn fill_group(file: File, group: Group, c: Cursor, words: &mut [i32], w: usize) -> Filled
    requires { Ready group_words (group_at file.bytes.now group c) w words.old }
    ensures { One group_words (group_at file.entry.bytes.now group) c w words.old result words.new }
{
    match group {
        Group::Imports => fill_import(file, c, words, w),
        Group::Handlers => fill_handler(file, c, words, w),
    }
}

fn fill_groups(file: File, group: Group, n: usize, c: Cursor, words: &mut [i32], w: usize) -> usize
    requires { Whole (many (group_at file.bytes.now group) n c) × (w + length (flatten group_words (leading (group_at file.bytes.now group) n c)) ≤ length words.old) }
    ensures { Groups (leading (group_at file.entry.bytes.now group) n c) w words.old result words.new }
{
    let mut here = c;
    let mut place = w;
    for _ in 0..n {
        let filled = fill_group(file, group, here, words, place);
        here = filled.next;
        place = filled.place;
    }
    place
}

// A section under its flag.
pub fn fill_section(
    file: File,
    group: Group,
    flags: i32,
    c: Cursor,
    words: &mut [i32],
    w: usize,
) -> usize
    requires { Whole (flagged_at file.bytes.now group flags c) × (w + length (flatten group_words (list_in (flagged_at file.bytes.now group flags c))) ≤ length words.old) }
    ensures { Groups (list_in (flagged_at file.entry.bytes.now group flags c)) w words.old result words.new }
{
    if !flag_of(group, flags) {
        return w;
    }
    let Ok((count, next)) = read_count(file.bytes, section_of(group), c) else {
        return w;
    };
    fill_groups(file, group, count, next, words, w)
}
