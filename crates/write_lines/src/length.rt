// How many bytes a row that is no instruction is written in.
ghost use Rattle.std.specs.Prelude.{◌≡◌, length};
ghost use Rattle.format.specs.Operands.{shown};
ghost use Rattle.format.specs.Content.{type_shown, item_shown, export_shown, function_shown, case_shown};
ghost use Rattle.format.specs.Writing.{type_line, item_line, export_line, function_line, case_line};
ghost use Rattle.write_lines.specs.Lines.{is_inline, parts_len, CodeLen};

use format::module::{DataItem, ExceptionCase, ExportEntry, ImportEntry};
use format::types::{File, Span, TypeDescriptor};
use spans::name;
use write_pieces::operand::operand_len;

// 1..15: the code byte holds it.
#[tactic(auto, using(crate::proofs::Forms::inline_by, crate::proofs::Forms::inline_not))]
pub fn is_inline(count: i32) -> bool
    ensures { result ≡ is_inline count }
{
    (1..=15).contains(&count)
}

// The code byte, and the count where it is not inline.
#[tactic(auto, using(crate::proofs::Forms::len_small, crate::proofs::Forms::len_one, crate::proofs::Forms::len_more, crate::proofs::Forms::code_inline, crate::proofs::Forms::code_later))]
fn count_len(count: i32) -> usize
    ensures { CodeLen count result }
{
    if is_inline(count) {
        return 1;
    }
    1 + operand_len(count)
}

fn span_len(file: &[u8], span: Span) -> usize
    ensures { result ≡ length (shown file.now span) }
{
    name(file, span).len()
}

#[tactic(auto, using(crate::proofs::Forms::len_most, crate::proofs::Forms::shown_most, crate::proofs::Forms::small_number, crate::proofs::Forms::type_len, bits::proofs::Signs::kept))]
pub fn type_len(file: File, t: TypeDescriptor) -> usize
    ensures { result ≡ parts_len (type_line (type_shown file.entry.bytes.now t)).parts }
{
    let map = span_len(file.bytes, t.map);
    operand_len(t.id) + operand_len(t.size) + operand_len(map as i32) + map
}

#[tactic(auto, using(crate::proofs::Forms::code_small, crate::proofs::Forms::len_most, crate::proofs::Forms::shown_most, crate::proofs::Forms::item_len, bits::proofs::Signs::kept))]
pub fn item_len(file: File, d: DataItem) -> usize
    ensures { result ≡ parts_len (item_line (item_shown file.entry.bytes.now d)).parts }
{
    count_len(d.count) + operand_len(d.offset) + span_len(file.bytes, d.value)
}

#[tactic(auto, using(crate::proofs::Forms::len_most, crate::proofs::Forms::shown_most, crate::proofs::Forms::export_len, bits::proofs::Signs::kept))]
pub fn export_len(file: File, e: ExportEntry) -> usize
    ensures { result ≡ parts_len (export_line (export_shown file.entry.bytes.now e)).parts }
{
    operand_len(e.pc) + operand_len(e.frame) + 4 + span_len(file.bytes, e.name) + 1
}

#[tactic(auto, using(crate::proofs::Forms::shown_most, crate::proofs::Forms::function_len))]
pub fn function_len(file: File, f: ImportEntry) -> usize
    ensures { result ≡ parts_len (function_line (function_shown file.entry.bytes.now f)).parts }
{
    4 + span_len(file.bytes, f.name) + 1
}

#[tactic(auto, using(crate::proofs::Forms::len_most, crate::proofs::Forms::shown_most, crate::proofs::Forms::case_len))]
pub fn case_len(file: File, c: ExceptionCase) -> usize
    ensures { result ≡ parts_len (case_line (case_shown file.entry.bytes.now c)).parts }
{
    span_len(file.bytes, c.name) + 1 + operand_len(c.pc)
}
