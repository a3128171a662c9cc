// 6 and 7: exports, and the functions of an import module.
#![tactic(auto)]

ghost use Rattle.std.specs.Prelude.{◌≡◌};
ghost use Rattle.law_format.specs.Loops.{end_of};
ghost use Rattle.format.specs.Sections.{name_in, export_at, function_at};
ghost use Rattle.law_format.specs.Views.{as_step, as_end};

use file_pieces::span_of;
use format::module::{ExportEntry, ImportEntry};
use format::refusal::Refusal;
use format::types::{Cursor, File, Span};
use reader::{read_name, read_operand, read_word};

// A name, as a span of table words, with its refusal.
#[tactic(auto, using(law_format::proofs::Values::name_inside))]
pub fn read_named(file: File, section: u8, c: Cursor) -> Result<(Span, Cursor), Refusal>
    ensures { as_step result ≡ name_in file.entry.bytes.now section c }
{
    let Some((part, next)) = read_name(file.bytes, c) else {
        return Err(Refusal::ended(section, c));
    };
    Ok((span_of(part), next))
}

#[tactic(auto, unfolding(format::specs::Sections::function_at))]
pub fn read_function(file: File, c: Cursor) -> Result<(ImportEntry, Cursor), Refusal>
    ensures { as_step result ≡ function_at file.entry.bytes.now c }
{
    let Some((signature, d)) = read_word(file.bytes, c) else {
        return Err(Refusal::ended(7, c));
    };
    let (name, next) = read_named(file, 7, d)?;
    Ok((ImportEntry { signature, name }, next))
}

#[tactic(auto, unfolding(format::specs::Sections::export_at))]
pub fn read_export(file: File, c: Cursor) -> Result<(ExportEntry, Cursor), Refusal>
    ensures { as_step result ≡ export_at file.entry.bytes.now c }
{
    let Some((pc, d)) = read_operand(file.bytes, c) else {
        return Err(Refusal::ended(6, c));
    };
    let Some((frame, e)) = read_operand(file.bytes, d) else {
        return Err(Refusal::ended(6, d));
    };
    let Some((signature, f)) = read_word(file.bytes, e) else {
        return Err(Refusal::ended(6, e));
    };
    let (name, next) = read_named(file, 6, f)?;
    Ok((
        ExportEntry {
            pc,
            frame,
            signature,
            name,
        },
        next,
    ))
}

// Where a function ends, for the first pass: no record is built.
#[tactic(auto, unfolding(format::specs::Sections::function_at, law_format::specs::Loops::end_of))]
pub fn skip_function(file: File, c: Cursor) -> Result<Cursor, Refusal>
    ensures { as_end result ≡ end_of (function_at file.entry.bytes.now c) }
{
    let Some((_, name)) = read_word(file.bytes, c) else {
        return Err(Refusal::ended(7, c));
    };
    let (_, next) = read_named(file, 7, name)?;
    Ok(next)
}

#[tactic(auto, unfolding(format::specs::Sections::export_at, law_format::specs::Loops::end_of))]
pub fn skip_export(file: File, c: Cursor) -> Result<Cursor, Refusal>
    ensures { as_end result ≡ end_of (export_at file.entry.bytes.now c) }
{
    let Some((_, frame)) = read_operand(file.bytes, c) else {
        return Err(Refusal::ended(6, c));
    };
    let Some((_, signature)) = read_operand(file.bytes, frame) else {
        return Err(Refusal::ended(6, frame));
    };
    let Some((_, name)) = read_word(file.bytes, signature) else {
        return Err(Refusal::ended(6, signature));
    };
    let (_, next) = read_named(file, 6, name)?;
    Ok(next)
}
