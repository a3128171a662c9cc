// 3, types.
#![tactic(auto)]

ghost use Rattle.std.specs.Prelude.{◌≡◌, ◌≤◌, pos, length};
ghost use Rattle.format.specs.Operands.{shown};
ghost use Rattle.format.specs.Records.{size_limit, ones_of};
ghost use Rattle.law_format.specs.Loops.{end_of};
ghost use Rattle.format.specs.Sections.{type_at};
ghost use Rattle.law_format.specs.Views.{as_step, as_end};

use file_pieces::read_sized;
use format::refusal::Refusal;
use format::types::{Cursor, File, Span, TypeDescriptor};
use reader::read_operand;
use spans::count_pointers;

// The ones of a map, as a table word: a file that refusal 1 spared has few enough.
#[tactic(auto, using(law_format::proofs::Values::ones_most))]
fn pointers_in(file: &[u8], map: Span) -> i32
    requires { length file.now ≤ size_limit }
    ensures { result ≡ pos (ones_of (shown file.now map)) }
{
    count_pointers(file, map) as i32
}

#[tactic(auto, unfolding(format::specs::Sections::type_at))]
pub fn read_type(file: File, c: Cursor) -> Result<(TypeDescriptor, Cursor), Refusal>
    ensures { as_step result ≡ type_at file.entry.bytes.now c }
{
    let Some((id, d)) = read_operand(file.bytes, c) else {
        return Err(Refusal::ended(3, c));
    };
    let Some((size, e)) = read_operand(file.bytes, d) else {
        return Err(Refusal::ended(3, d));
    };
    let (map, next) = read_sized(file, 3, e)?;
    Ok((
        TypeDescriptor {
            id,
            size,
            map,
            pointers: pointers_in(file.bytes, map),
        },
        next,
    ))
}

// Where a type ends, for the first pass: the ones of its map are not counted.
#[tactic(auto, unfolding(format::specs::Sections::type_at, law_format::specs::Loops::end_of))]
pub fn skip_type(file: File, c: Cursor) -> Result<Cursor, Refusal>
    ensures { as_end result ≡ end_of (type_at file.entry.bytes.now c) }
{
    let Some((_, size)) = read_operand(file.bytes, c) else {
        return Err(Refusal::ended(3, c));
    };
    let Some((_, map)) = read_operand(file.bytes, size) else {
        return Err(Refusal::ended(3, size));
    };
    let (_, next) = read_sized(file, 3, map)?;
    Ok(next)
}
