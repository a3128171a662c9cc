// Import modules with their functions, handlers with their cases, in the table words: one loop that checks n of them.
#![tactic(auto)]

ghost use Rattle.std.specs.Prelude.{◌≡◌};
ghost use Rattle.format.specs.Reading.{many};
ghost use Rattle.law_format.specs.Loops.{end_of};
ghost use Rattle.law_format.specs.Views.{as_end};
ghost use Rattle.table_groups.specs.Groups.{group_from};

use format::module::{CASE_WIDTH, HANDLER_WIDTH, IMPORT_WIDTH};
use format::refusal::Refusal;
use rows::Kind;
use rows::groups::Group;
use table_handlers::{handler_from, last_from};
use table_names::function_count_from;
use table_rows::check_rows;

#[tactic(auto, using(crate::proofs::Members::import_bad, crate::proofs::Members::import_rows, crate::proofs::Members::import_room))]
fn check_import(file: &[u8], words: &[i32], w: usize) -> Result<usize, Refusal>
    ensures { as_end result ≡ end_of (group_from file.now words.now Group.Imports w) }
{
    let Some(count) = function_count_from(words, w) else {
        return Err(Refusal::NotWellFormed { place: w });
    };
    check_rows(file, words, Kind::Functions, count, w + IMPORT_WIDTH)
}

// A handler's cases, the last of which has no name.
#[tactic(auto, using(crate::proofs::Members::handler_bad, crate::proofs::Members::handler_room, crate::proofs::Members::cases_fit, crate::proofs::Members::cases_least, crate::proofs::Members::last_room, crate::proofs::Members::last_bad, crate::proofs::Members::handler_ends))]
fn check_handler(file: &[u8], words: &[i32], w: usize) -> Result<usize, Refusal>
    ensures { as_end result ≡ end_of (group_from file.now words.now Group.Handlers w) }
{
    let Some(handler) = handler_from(words, w) else {
        return Err(Refusal::NotWellFormed { place: w });
    };
    let cases = handler.cases as usize;
    let next = check_rows(file, words, Kind::Cases, cases - 1, w + HANDLER_WIDTH)?;
    let Some(_) = last_from(words, next) else {
        return Err(Refusal::NotWellFormed { place: next });
    };
    Ok(next + CASE_WIDTH)
}

fn check_group(file: &[u8], words: &[i32], group: Group, w: usize) -> Result<usize, Refusal>
    ensures { as_end result ≡ end_of (group_from file.now words.now group w) }
{
    match group {
        Group::Imports => check_import(file, words, w),
        Group::Handlers => check_handler(file, words, w),
    }
}

// Where n groups end.
#[tactic(auto, using(table_rows::proofs::Turns::pass_turn, table_rows::proofs::Turns::pass_stop, table_rows::proofs::Turns::pass_done))]
pub fn check_groups(
    file: &[u8],
    words: &[i32],
    group: Group,
    n: usize,
    w: usize,
) -> Result<usize, Refusal>
    ensures { as_end result ≡ end_of (many (group_from file.now words.now group) n w) }
{
    let mut here = w;
    for _ in 0..n {
        here = check_group(file, words, group, here)?;
    }
    Ok(here)
}
