// raise: the first handler that covers a pc, and in it the first case that takes the name.
#![tactic(auto)]

mod compare;

ghost use Rattle.std.specs.Prelude.{◌≡◌};
ghost use Rattle.format.specs.Reading.{many};
ghost use Rattle.law_format.specs.Loops.{leading, Whole};
ghost use Rattle.format.specs.WellFormed.{handled_from};
ghost use Rattle.format.specs.Walk as Spec;
ghost use Rattle.walk_search.specs.Choice.{chosen_in};

use crate::compare::case_takes;
use format::module::{CASE_WIDTH, HANDLER_WIDTH, Handler};
use table_handlers::{case_there, handler_there};

// begin <= pc < end
#[tactic(auto, unfolding(format::specs::Walk::covers))]
fn covers(handler: Handler, pc: i32) -> bool
    ensures { result ≡ Spec.covers pc handler }
{
    handler.begin <= pc && pc < handler.end
}

// Where a raised name leads: to a case's pc, in a handler with such a type.
#[derive(Clone, Copy)]
pub struct Chosen {
    pub descriptor: i32,
    pub last: bool,
    pub pc: i32,
}

// Among n handlers that are known to be good.
pub fn search(
    file: &[u8],
    words: &[i32],
    n: usize,
    w: usize,
    raised: &[u8],
    pc: i32,
) -> Option<Chosen>
    requires { Whole (many (handled_from file.now words.now) n w) }
    ensures { result ≡ chosen_in file.now raised.now pc (leading (handled_from file.now words.now) n w) }
{
    let mut chosen = None;
    let mut here = w;
    'search: for _ in 0..n {
        let handler = handler_there(words, here);
        let cases = handler.cases as usize;
        let mut at = here + HANDLER_WIDTH;
        if covers(handler, pc) {
            for i in 0..cases {
                let case = case_there(words, at);
                if case_takes(file, case, raised) {
                    chosen = Some(Chosen {
                        descriptor: handler.descriptor,
                        last: i + 1 == cases,
                        pc: case.pc,
                    });
                    break 'search;
                }
                at += CASE_WIDTH;
            }
            // The last case is nameless: one of them took the name.
            break 'search;
        }
        here = at + CASE_WIDTH * cases;
    }
    chosen
}
