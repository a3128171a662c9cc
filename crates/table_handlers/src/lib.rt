// 8: handlers of the table words without their cases, cases, and a handler's last case.
// The readers are alike in two calls only, `has_room` and `then_some`: a trait of records would be longer than they are.
#![tactic(auto)]

ghost use Rattle.std.specs.Prelude.{◌≡◌, ◌+◌, ◌≤◌, length};
ghost use Rattle.format.specs.Words.{handler_width, case_width};
ghost use Rattle.format.specs.WellFormed.{handler_there, handler_from, case_there, case_from, last_from};
ghost use Rattle.table_handlers.specs.Tests.{case_count_right};
ghost use Rattle.law_format.specs.Views.{record_at};

use bits::as_natural;
use format::module::{CASE_WIDTH, ExceptionCase, HANDLER_WIDTH, Handler};
use format::types::Span;
use table_pieces::{has_room, is_name};

// As the words stand.
pub fn handler_there(words: &[i32], w: usize) -> Handler
    requires { w + handler_width ≤ length words.now }
    ensures { result ≡ handler_there words.now w }
{
    Handler {
        offset: words[w],
        begin: words[w + 1],
        end: words[w + 2],
        descriptor: words[w + 3],
        cases: words[w + 4],
    }
}

// 1..65,536 cases.
fn case_count_right(h: Handler) -> bool
    ensures { result ≡ case_count_right h.cases }
{
    as_natural(h.cases).is_some_and(|n| (1..=65536).contains(&n))
}

#[tactic(auto, using(crate::proofs::Handlers::handler_says))]
pub fn handler_from(words: &[i32], w: usize) -> Option<Handler>
    ensures { record_at handler_width w result ≡ handler_from words.now w }
{
    if !has_room(words, HANDLER_WIDTH, w) {
        return None;
    }
    let handler = handler_there(words, w);
    case_count_right(handler).then_some(handler)
}

// As the words stand.
pub fn case_there(words: &[i32], w: usize) -> ExceptionCase
    requires { w + case_width ≤ length words.now }
    ensures { result ≡ case_there words.now w }
{
    ExceptionCase {
        name: Span {
            start: words[w],
            len: words[w + 1],
        },
        pc: words[w + 2],
    }
}

#[tactic(auto, unfolding(format::specs::WellFormed::case_from))]
pub fn case_from(file: &[u8], words: &[i32], w: usize) -> Option<ExceptionCase>
    ensures { record_at case_width w result ≡ case_from file.now words.now w }
{
    if !has_room(words, CASE_WIDTH, w) {
        return None;
    }
    let case = case_there(words, w);
    is_name(file, case.name).then_some(case)
}

// The last case has an empty name at place 0.
#[tactic(auto, unfolding(format::specs::WellFormed::last_from))]
pub fn last_from(words: &[i32], w: usize) -> Option<ExceptionCase>
    ensures { record_at case_width w result ≡ last_from words.now w }
{
    if !has_room(words, CASE_WIDTH, w) {
        return None;
    }
    let last = case_there(words, w);
    (last.name == Span { start: 0, len: 0 }).then_some(last)
}
