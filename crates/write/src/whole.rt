// The bytes of a whole module, from the front of an output that has room for them.
ghost use Rattle.format.specs.Operands.{shown};
ghost use Rattle.write_bytes.specs.Laid.{Ready, Laid};
ghost use Rattle.write_measure.specs.Layout.{AllAllowed, name_lines, module_lines};
ghost use Rattle.write.specs.Wrote.{parts_of};

use crate::groups::write_section;
use crate::heads::put_header;
use crate::runs::{Wrote, write_rows};
use format::types::Span;
use rows::Kind;
use rows::groups::Group;
use spans::name;
use table_check::tables::Tables;
use write_pieces::{put_byte, put_ended};

// The byte that ends the data, and the module's name.
fn write_name(file: &[u8], span: Span, out: &mut [u8], at: usize) -> usize
    requires { Ready (parts_of (name_lines (shown file.now span))) at out.old }
    ensures { Laid (parts_of (name_lines (shown file.now span))) at out.old result out.new }
{
    let next = put_byte(out, at, 0);
    put_ended(out, next, name(file, span))
}

pub fn write_module(tables: Tables, out: &mut [u8]) -> usize
    requires { AllAllowed tables.«module» tables.places × Ready (parts_of (module_lines tables.file.bytes.now tables.words.now tables.«module» tables.places)) 0 out.old }
    ensures { Laid (parts_of (module_lines tables.entry.file.bytes.now tables.entry.words.now tables.entry.«module» tables.entry.places)) 0 out.old result out.new }
{
    let m = tables.module;
    let file = tables.file;
    let words = tables.words;
    let n = tables.places.counts;
    let flags = m.header.flags;
    let header = Wrote {
        next: 0,
        place: put_header(out, 0, m.header),
    };
    let code = write_rows(file, words, Kind::Code, n.code, header, out);
    let types = write_rows(file, words, Kind::Types, n.types, code, out);
    let items = write_rows(file, words, Kind::Items, n.items, types, out);
    let named = Wrote {
        next: items.next,
        place: write_name(file.bytes, m.name, out, items.place),
    };
    let exports = write_rows(file, words, Kind::Exports, n.exports, named, out);
    let imports = write_section(file, words, Group::Imports, flags, n.imports, exports, out);
    write_section(
        file,
        words,
        Group::Handlers,
        flags,
        n.handlers,
        imports,
        out,
    )
    .place
}
