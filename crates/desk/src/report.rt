// What is said of a file.
ghost use Rattle.std.specs.Prelude.{◌<◌, ◌^◌};

use crate::shown::Shown;
use format::module::{
    EXPORT_WIDTH, ExportEntry, INSTRUCTION_WIDTH, ITEM_WIDTH, Loaded, Module, TYPE_WIDTH,
};
use format::refusal::{Numbered, Refusal};
use spans::name;
use std::io;
use table_names::export_from;

// A count of a module that was loaded, none of which is negative.
fn count_of(v: i32) -> usize
    ensures { result < 2 ^ 31 }
{
    usize::try_from(v).unwrap_or(0)
}

fn export_is<P: Print>(rt: &P, k: usize, file: &[u8], export: ExportEntry) -> io::Result<()> {
    println!(rt;
        "  export {k}: \"{}\", pc {}, frame type {}, signature 0x{:08x}",
        Shown(name(file, export.name)),
        export.pc,
        export.frame,
        export.signature.cast_unsigned()
    )
}

// Exports stand after the instructions, the types and the data items.
fn first_export(m: Module) -> usize
    ensures { result < 2 ^ 40 }
{
    let header = m.header;
    count_of(header.code_size) * INSTRUCTION_WIDTH
        + count_of(header.type_size) * TYPE_WIDTH
        + count_of(m.items) * ITEM_WIDTH
}

fn exports_are<P: Print>(rt: &P, m: Module, file: &[u8], words: &[i32]) -> io::Result<()> {
    let header = m.header;
    let first = first_export(m);
    for k in 0..count_of(header.export_size) {
        if let Some(export) = export_from(file, words, first + k * EXPORT_WIDTH) {
            export_is(rt, k, file, export)?;
        }
    }
    Ok(())
}

fn counts_are<P: Print>(rt: &P, m: Module) -> io::Result<()> {
    let header = m.header;
    print!(rt;
        "  instructions {}, types {}, data items {}, ",
        header.code_size, header.type_size, m.items
    )?;
    println!(rt;
        "exports {}, import modules {}, handlers {}",
        header.export_size, m.imports, m.handlers
    )
}

pub fn good<P: Print>(rt: &P, loaded: Loaded, file: &[u8], words: &[i32]) -> io::Result<()> {
    let module = loaded.module;
    println!(rt;
        "good\n  name \"{}\", {} of {} bytes used, {} table words",
        Shown(name(file, module.name)),
        loaded.used,
        file.len(),
        loaded.needed
    )?;
    counts_are(rt, module)?;
    exports_are(rt, module, file, words)
}

// The four numbers, and what they say.
pub fn refused<P: Print>(rt: &P, why: Refusal) -> io::Result<()> {
    let n = Numbered::from(why);
    println!(rt;
        "refused {}, section {}, place {}, detail {}",
        n.number, n.section, n.place, n.detail
    )?;
    println!(rt; "  {}", reasons::reason(n.number))?;
    println!(rt; "  section: {}", reasons::section(n.section))?;
    println!(rt; "  place: {}", reasons::place(n.number))?;
    println!(rt; "  detail: {}", reasons::detail(n.number))
}
