// The words of instructions. Where an instruction is plain its numbers are stored as they are read: no record is built, and no refusal is in sight.
ghost use Rattle.std.specs.Prelude.{true, ◌≡◌, ◌+◌, ◌≤◌, length};
ghost use Rattle.file_code.specs.Plain.{first_of, second_of, past_operands, is_plain};
ghost use Rattle.format.specs.Sections.{instruction_at};
ghost use Rattle.format.specs.Words.{instruction_width, instruction_words};
ghost use Rattle.rows.specs.Rows.{row_at, row_words};
ghost use Rattle.load_fill.specs.Filled.{One, words_in};

use crate::filled::{Filled, fill_one};
use file_code::plain::{first_of, is_plain, middles_for, operands_for, past_two, second_of};
use file_code::read_instruction;
use format::instruction::Addressing;
use format::put::put_all;
use format::types::Cursor;
use rows::Kind;

// What a source or a destination with n operands is stored as, and the place past it.
fn registers(file: &[u8], n: u32, c: Cursor) -> (i32, i32, Cursor)
    requires { (n ≤ 2) × (c.at + 8 ≤ length file.now) }
    ensures { result ≡ (first_of n file.now c, second_of n file.now c, past_operands file.now n c) }
{
    (
        first_of(file, n, c),
        second_of(file, n, c),
        past_two(file, n, c),
    )
}

// Of the middle operand, the source and the destination: the number of the mode, and the registers that the mode has.
#[tactic(auto, using(crate::proofs::PlainWords::plain_room, crate::proofs::PlainWords::middles_few, crate::proofs::PlainWords::sources_few, crate::proofs::PlainWords::destinations_few, crate::proofs::PlainWords::source_near, crate::proofs::PlainWords::destination_near, crate::proofs::PlainWords::plain_words, crate::proofs::PlainWords::plain_next))]
fn put_plain(file: &[u8], c: Cursor, words: &mut [i32], w: usize) -> Filled
    requires { (is_plain file.now c ≡ true) × (w + instruction_width ≤ length words.old) }
    ensures { One instruction_words (instruction_at file.now) c w words.old result words.new }
{
    let modes = Addressing::from(file[c.at + 1]);
    let middle = c.past(2);
    let middles = middles_for(modes.middle);
    let register = first_of(file, middles, middle);
    let source = past_two(file, middles, middle);
    let (source1, source2, destination) = registers(file, operands_for(modes.source), source);
    let (destination1, destination2, next) = registers(
        file,
        operands_for(modes.destination),
        destination,
    );
    let place = put_all(
        words,
        w,
        [
            file[c.at].into(),
            modes.source.into(),
            source1,
            source2,
            modes.middle.into(),
            register,
            modes.destination.into(),
            destination1,
            destination2,
        ],
    );
    Filled { next, place }
}

// An instruction, stored; where it is refused, nothing.
#[tactic(auto, using(crate::proofs::PlainWords::plain_wide))]
pub fn fill_instruction(file: &[u8], c: Cursor, words: &mut [i32], w: usize) -> Filled
    requires { w + length (words_in row_words (row_at file.now Kind.Code c)) ≤ length words.old }
    ensures { One row_words (row_at file.now Kind.Code) c w words.old result words.new }
{
    if is_plain(file, c) {
        return put_plain(file, c, words, w);
    }
    fill_one(read_instruction(file, c), c, words, w)
}
