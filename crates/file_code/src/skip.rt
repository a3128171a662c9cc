// Where an instruction ends, for the first pass: no record is built. Almost always the lengths tell it; the rest is read.
ghost use Rattle.std.specs.Prelude.{◌≡◌, ◌+◌, ◌*◌, ◌≤◌, length};
ghost use Rattle.law_format.specs.Loops.{end_of};
ghost use Rattle.format.specs.Sections.{instruction_at};
ghost use Rattle.law_format.specs.Views.{as_end};
ghost use Rattle.file_code.specs.Plain as Spec;

use crate::plain::{form_of, plain_operands};
use crate::read_instruction;
use format::refusal::Refusal;
use format::types::Cursor;

#[tactic(auto, using(crate::proofs::PlainLaws::width_most, crate::proofs::PlainLaws::past_turn, crate::proofs::PlainLaws::past_done))]
fn past_operands(file: &[u8], n: u32, c: Cursor) -> Cursor
    requires { c.at + n * 4 ≤ length file.now }
    ensures { result ≡ Spec.past_operands file.now n c }
{
    let mut here = c;
    for _ in 0..n {
        here = here.past(form_of(file[here.at]).width);
    }
    here
}

#[tactic(auto, using(crate::proofs::PlainLaws::few_inside, crate::proofs::PlainLaws::few_end), unfolding(law_format::specs::Loops::end_of))]
pub fn skip_instruction(file: &[u8], c: Cursor) -> Result<Cursor, Refusal>
    ensures { as_end result ≡ end_of (instruction_at file.now c) }
{
    let n = plain_operands(file, c);
    if n <= 5 {
        return Ok(past_operands(file, n, c.past(2)));
    }
    let (_, next) = read_instruction(file, c)?;
    Ok(next)
}
