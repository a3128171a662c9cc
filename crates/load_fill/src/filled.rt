// What a loop of the second pass answers, and the one place where a record that was read is stored.
ghost use Rattle.std.specs.Prelude.{◌+◌, ◌≤◌, length};
ghost use Rattle.law_format.specs.Loops.{then_place};
ghost use Rattle.law_format.specs.Views.{as_step};
ghost use Rattle.load_fill.specs.Filled.{Done, words_in};

use format::refusal::Refusal;
use format::types::Cursor;
use load_store::Store;

// Where the reading stopped, and the place after the words.
#[derive(Clone, Copy)]
pub struct Filled {
    pub next: Cursor,
    pub place: usize,
}

// A record that was read at a cursor, stored; where it is refused, nothing.
#[tactic(auto, using(law_format::proofs::Put::put_none))]
pub fn fill_one<T: Store>(
    read: Result<(T, Cursor), Refusal>,
    c: Cursor,
    words: &mut [i32],
    w: usize,
) -> Filled
    requires { w + length (words_in T.words_of (as_step read)) ≤ length words.old }
    ensures { Done (words_in T.words_of (as_step read)) (then_place c (as_step read) (λ next. next)) w words.old result words.new }
{
    match read {
        Ok((record, next)) => Filled {
            next,
            place: record.store(words, w),
        },
        Err(_) => Filled { next: c, place: w },
    }
}
