// writer.rs: a module whose tables are lent, written as a file.
#![tactic(auto)]

mod groups;
mod heads;
mod runs;
mod whole;

ghost use Rattle.std.specs.Prelude.{◌≡◌, ◌||◌, eqb};
ghost use Rattle.format.specs.Writing.{write_of};
ghost use Rattle.rows.specs.Groups.{flag_of};
ghost use Rattle.write_measure.specs.Layout.{AllAllowed};
ghost use Rattle.write.specs.Wrote.{Sized};

use crate::whole::write_module;
use format::module::{FILE_LIMIT, Module};
use format::refusal::Refusal;
use rows::groups::{Group, flag_of};
use table_check::check;
use table_check::tables::Tables;
use write_measure::whole::measure;

// Refusal 23: a section with records has its flag.
fn allowed(group: Group, flags: i32, n: usize) -> bool
    ensures { result ≡ (eqb n 0 || flag_of group flags) }
{
    n == 0 || flag_of(group, flags)
}

// 1 for the result, then 24; else the bytes.
fn write_sized(tables: Tables, size: usize, out: &mut [u8]) -> Result<usize, Refusal>
    requires { AllAllowed tables.«module» tables.places × Sized tables.file.bytes.now tables.words.now tables.«module» tables.places size }
    ensures { write_of tables.entry.«module» tables.entry.file.bytes.now tables.entry.words.now out.old ≡ (result, out.new) }
{
    if FILE_LIMIT < size {
        return Err(Refusal::TooLarge);
    }
    if out.len() < size {
        return Err(Refusal::ShortOutput {
            needed: size as u32,
        });
    }
    write_module(tables, out);
    Ok(size)
}

// 23, imports first; then 21, in writing order.
fn write_checked(tables: Tables, out: &mut [u8]) -> Result<usize, Refusal>
    ensures { write_of tables.entry.«module» tables.entry.file.bytes.now tables.entry.words.now out.old ≡ (result, out.new) }
{
    let counts = tables.places.counts;
    let flags = tables.module.header.flags;
    if !allowed(Group::Imports, flags, counts.imports) {
        return Err(Refusal::NoFlag { section: 7, flags });
    }
    if !allowed(Group::Handlers, flags, counts.handlers) {
        return Err(Refusal::NoFlag { section: 8, flags });
    }
    let measured = measure(tables)?;
    write_sized(tables, measured.size, out)
}

// The answer and the output as document 01 says: 1 and 22, then 23, 21, 1 for the result and 24, each leaving the output as lent.
pub fn write(m: Module, file: &[u8], words: &[i32], out: &mut [u8]) -> Result<usize, Refusal>
    ensures { write_of m file.now words.now out.old ≡ (result, out.new) }
{
    let tables = check(m, file, words)?;
    write_checked(tables, out)
}
