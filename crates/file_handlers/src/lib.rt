// 8, a handler's own record and its cases.
#![tactic(auto)]

ghost use Rattle.std.specs.Prelude.{◌≡◌, ◌+◌, ◌%◌, ◌^◌, pos};
ghost use Rattle.bits.specs.Bits as Spec;
ghost use Rattle.law_format.specs.Loops.{end_of};
ghost use Rattle.format.specs.Sections.{case_at, head_at};
ghost use Rattle.law_format.specs.Views.{as_step, as_end};

use file_names::read_named;
use file_pieces::read_four;
use format::module::{ExceptionCase, Handler};
use format::refusal::Refusal;
use format::types::{Cursor, File};
use reader::read_operand;

#[tactic(auto, unfolding(format::specs::Sections::case_at))]
pub fn read_case(file: File, c: Cursor) -> Result<(ExceptionCase, Cursor), Refusal>
    ensures { as_step result ≡ case_at file.entry.bytes.now c }
{
    let (name, d) = read_named(file, 8, c)?;
    let Some((pc, next)) = read_operand(file.bytes, d) else {
        return Err(Refusal::ended(8, d));
    };
    Ok((ExceptionCase { name, pc }, next))
}

// Where a case ends, for the first pass: no record is built.
#[tactic(auto, unfolding(format::specs::Sections::case_at, law_format::specs::Loops::end_of))]
pub fn skip_case(file: File, c: Cursor) -> Result<Cursor, Refusal>
    ensures { as_end result ≡ end_of (case_at file.entry.bytes.now c) }
{
    let (_, pc) = read_named(file, 8, c)?;
    let Some((_, next)) = read_operand(file.bytes, pc) else {
        return Err(Refusal::ended(8, pc));
    };
    Ok(next)
}

// The number of cases is the packed count's low 16 bits, and the last.
#[tactic(auto, using(crate::proofs::Packed::low_half))]
fn cases_of(packed: i32) -> i32
    ensures { result ≡ pos (Spec.bits_of (2 ^ 31) packed % 2 ^ 16 + 1) }
{
    ((packed.cast_unsigned() & 0xFFFF) + 1) as i32
}

#[tactic(auto, unfolding(format::specs::Sections::head_at))]
pub fn read_head(file: &[u8], c: Cursor) -> Result<(Handler, Cursor), Refusal>
    ensures { as_step result ≡ head_at file.now c }
{
    let (four, d) = read_four(file, 8, c)?;
    let Some((packed, next)) = read_operand(file, d) else {
        return Err(Refusal::ended(8, d));
    };
    Ok((
        Handler {
            offset: four.first.value,
            begin: four.second.value,
            end: four.third.value,
            descriptor: four.fourth.value,
            cases: cases_of(packed),
        },
        next,
    ))
}
