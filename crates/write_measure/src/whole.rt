// The whole module: each section is measured after those before it.
ghost use Rattle.std.specs.Prelude.{◌≡◌, ◌*◌, ◌+◌, ◌^◌, ◌≤◌, ◌<◌, Ok};
ghost use Rattle.law_format.specs.Loops.{reached};
ghost use Rattle.format.specs.Operands.{shown};
ghost use Rattle.table_groups.specs.Groups.{group_from};
ghost use Rattle.write_measure.specs.Measured.{measured, size_read, Follows};
ghost use Rattle.write_measure.specs.Layout.{groups_at, name_lines, SectionIs, AllAllowed, module_lines};

use crate::Measured;
use crate::groups::measure_groups;
use crate::heads::{measure_header, measure_one};
use crate::runs::measure_rows;
use format::refusal::Refusal;
use format::types::{File, Span};
use rows::Kind;
use rows::groups::{Group, flag_of, section_of};
use spans::name;
use table_check::tables::Tables;

// The byte that ends the data, and the module's name.
#[tactic(auto, using(crate::proofs::Chained::name_fits))]
fn measure_name(file: File, span: Span, from: Measured) -> Measured
    requires { from.size < 2 ^ 62 }
    ensures { size_read (Ok result) ≡ measured from.size from.next (name_lines (shown file.entry.bytes.now span)) }
{
    Measured {
        size: from.size + 1 + name(file.bytes, span).len() + 1,
        next: from.next,
    }
}

// Only under its flag: the count, the groups, and a closing zero.
fn measure_section(
    file: File,
    words: &[i32],
    group: Group,
    flags: i32,
    n: usize,
    from: Measured,
) -> Result<Measured, Refusal>
    requires { SectionIs file.bytes.now words.now group flags n from.next × (from.size ≤ 2 ^ 57 + 2 ^ 25 * from.next) }
    ensures { Follows from (groups_at file.entry.bytes.now words.now group flags n from.next) 5 (reached (group_from file.entry.bytes.now words.now group) n from.next) result }
{
    if !flag_of(group, flags) {
        return Ok(from);
    }
    let counted = measure_one(n as i32, section_of(group), 0, from)?;
    let grouped = measure_groups(file, words, group, n, counted)?;
    Ok(Measured {
        size: grouped.size + 1,
        next: grouped.next,
    })
}

// Refusal 21 in writing order, or how many bytes the module is written in.
pub fn measure(tables: Tables) -> Result<Measured, Refusal>
    requires { AllAllowed tables.«module» tables.places }
    ensures { size_read result ≡ measured 0 0 (module_lines tables.entry.file.bytes.now tables.entry.words.now tables.entry.«module» tables.entry.places) }
{
    let m = tables.module;
    let file = tables.file;
    let words = tables.words;
    let n = tables.places.counts;
    let flags = m.header.flags;
    let header = measure_header(m.header)?;
    let code = measure_rows(file, words, Kind::Code, n.code, header)?;
    let types = measure_rows(file, words, Kind::Types, n.types, code)?;
    let items = measure_rows(file, words, Kind::Items, n.items, types)?;
    let named = measure_name(file, m.name, items);
    let exports = measure_rows(file, words, Kind::Exports, n.exports, named)?;
    let imports = measure_section(file, words, Group::Imports, flags, n.imports, exports)?;
    measure_section(file, words, Group::Handlers, flags, n.handlers, imports)
}
