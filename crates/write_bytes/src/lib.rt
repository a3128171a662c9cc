// The bytes of a row that is no instruction, written at a place of the output. Each answers the place past them.
#![tactic(auto)]

ghost use Rattle.std.specs.Prelude.{◌<◌};
ghost use Rattle.format.specs.Content.{type_shown, item_shown, export_shown, function_shown, case_shown};
ghost use Rattle.format.specs.Writing.{code_parts, type_line, item_line, export_line, function_line, case_line};
ghost use Rattle.write_bytes.specs.Laid.{Ready, Laid};

use format::module::{DataItem, ExceptionCase, ExportEntry, ImportEntry};
use format::types::{File, TypeDescriptor};
use spans::name;
use write_lines::length::is_inline;
use write_pieces::operand::put_operand;
use write_pieces::{put_byte, put_bytes, put_ended, put_word};

pub fn put_type(file: File, out: &mut [u8], at: usize, t: TypeDescriptor) -> usize
    requires { Ready (type_line (type_shown file.bytes.now t)).parts at out.old }
    ensures { Laid (type_line (type_shown file.entry.bytes.now t)).parts at out.old result out.new }
{
    let map = name(file.bytes, t.map);
    let a = put_operand(out, at, t.id);
    let b = put_operand(out, a, t.size);
    let c = put_operand(out, b, map.len() as i32);
    put_bytes(out, c, map)
}

// The code byte, and the count where it is not inline.
fn put_code(out: &mut [u8], at: usize, kind: u8, count: i32) -> usize
    requires { (kind < 16) × Ready (code_parts kind count) at out.old }
    ensures { Laid (code_parts kind count) at out.old result out.new }
{
    if is_inline(count) {
        return put_byte(out, at, (kind << 4) | (count as u8));
    }
    let next = put_byte(out, at, kind << 4);
    put_operand(out, next, count)
}

pub fn put_item(file: &[u8], out: &mut [u8], at: usize, d: DataItem) -> usize
    requires { Ready (item_line (item_shown file.now d)).parts at out.old }
    ensures { Laid (item_line (item_shown file.now d)).parts at out.old result out.new }
{
    let a = put_code(out, at, d.kind.into(), d.count);
    let b = put_operand(out, a, d.offset);
    put_bytes(out, b, name(file, d.value))
}

pub fn put_export(file: &[u8], out: &mut [u8], at: usize, e: ExportEntry) -> usize
    requires { Ready (export_line (export_shown file.now e)).parts at out.old }
    ensures { Laid (export_line (export_shown file.now e)).parts at out.old result out.new }
{
    let a = put_operand(out, at, e.pc);
    let b = put_operand(out, a, e.frame);
    let c = put_word(out, b, e.signature);
    put_ended(out, c, name(file, e.name))
}

pub fn put_function(file: &[u8], out: &mut [u8], at: usize, f: ImportEntry) -> usize
    requires { Ready (function_line (function_shown file.now f)).parts at out.old }
    ensures { Laid (function_line (function_shown file.now f)).parts at out.old result out.new }
{
    let a = put_word(out, at, f.signature);
    put_ended(out, a, name(file, f.name))
}

pub fn put_case(file: &[u8], out: &mut [u8], at: usize, c: ExceptionCase) -> usize
    requires { Ready (case_line (case_shown file.now c)).parts at out.old }
    ensures { Laid (case_line (case_shown file.now c)).parts at out.old result out.new }
{
    let a = put_ended(out, at, name(file, c.name));
    put_operand(out, a, c.pc)
}
