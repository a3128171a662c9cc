// One loop for every run of records of one kind.
ghost use Rattle.std.specs.Prelude.{◌+◌, ◌≤◌, length};
ghost use Rattle.law_format.specs.Loops.{leading};
ghost use Rattle.format.specs.Words.{flatten};
ghost use Rattle.rows.specs.Rows.{row_at, row_words};
ghost use Rattle.load_fill.specs.Filled.{Rows};

use crate::filled::Filled;
use crate::records::fill_row;
use format::types::{Cursor, File};
use rows::Kind;

// Every row has words: where none was stored, it was refused.
pub fn fill_rows(file: File, kind: Kind, n: usize, c: Cursor, words: &mut [i32], w: usize) -> Filled
    requires { w + length (flatten row_words (leading (row_at file.bytes.now kind) n c)) ≤ length words.old }
    ensures { Rows file.entry.bytes.now kind n c w words.old result words.new }
{
    let mut here = c;
    let mut place = w;
    for _ in 0..n {
        let one = fill_row(file, kind, here, words, place);
        if one.place == place {
            return Filled { next: here, place };
        }
        here = one.next;
        place = one.place;
    }
    Filled { next: here, place }
}
