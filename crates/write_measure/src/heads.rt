// A line of operands: the header, a section's count, the head of an import module or of a handler.
ghost use Rattle.std.specs.Prelude.{◌≡◌, [], ◌∷◌, map, ◌+◌, ◌^◌, ◌≤◌, ◌<◌, length};
ghost use Rattle.format.specs.Content.{numbers_of};
ghost use Rattle.format.specs.Writing.{operand, line, header_line};
ghost use Rattle.law_format.specs.Cased.{Cased};
ghost use Rattle.write_measure.specs.Heads.{one_line, head_numbers, head_line, header_numbers};
ghost use Rattle.write_measure.specs.Measured.{measured, size_read};

use crate::Measured;
use format::module::{HANDLER_WIDTH, Handler, Header, XMAGIC};
use format::refusal::Refusal;
use write_pieces::operand::operand_len;

#[tactic(auto, using(crate::proofs::Counted::counting, crate::proofs::Counted::counted, crate::proofs::Counted::counted_wide, crate::proofs::Counted::counted_all, write_lines::proofs::Forms::len_most))]
pub fn measure_operands(
    values: &[i32],
    section: u8,
    width: usize,
    from: Measured,
) -> Result<Measured, Refusal>
    requires { (length values.now ≤ 9) × (from.size < 2 ^ 62) × (from.next + width < 2 ^ 62) }
    ensures { size_read result ≡ measured from.size from.next (line section width (map operand values.now) ∷ []) }
{
    let mut size = from.size;
    for &value in values {
        let len = operand_len(value);
        if len == 0 {
            return Err(Refusal::WideOperand {
                section,
                place: from.next,
                value,
            });
        }
        size += len;
    }
    Ok(Measured {
        size,
        next: from.next + width,
    })
}

pub fn measure_one(
    value: i32,
    section: u8,
    width: usize,
    from: Measured,
) -> Result<Measured, Refusal>
    requires { (from.size < 2 ^ 62) × (from.next + width < 2 ^ 62) }
    ensures { size_read result ≡ measured from.size from.next (one_line section width value ∷ []) }
{
    measure_operands(&[value], section, width, from)
}

// A handler's packed count has the cases before the last.
#[tactic(auto, using(crate::proofs::Counted::one_less))]
pub fn head_values(h: Handler) -> [i32; 5]
    requires { Cased h.cases }
    ensures { result ≡ head_numbers h }
{
    [h.offset, h.begin, h.end, h.descriptor, h.cases - 1]
}

pub fn measure_head(h: Handler, from: Measured) -> Result<Measured, Refusal>
    requires { (from.size < 2 ^ 62) × (from.next < 2 ^ 61) × Cased h.cases }
    ensures { size_read result ≡ measured from.size from.next (head_line h ∷ []) }
{
    measure_operands(&head_values(h), 8, HANDLER_WIDTH, from)
}

// The plain magic, flags and the seven numbers.
pub fn header_values(h: Header) -> [i32; 9]
    ensures { result ≡ header_numbers h }
{
    [
        XMAGIC,
        h.flags,
        h.stack_extent,
        h.code_size,
        h.data_size,
        h.type_size,
        h.export_size,
        h.entry_pc,
        h.entry_type,
    ]
}

pub fn measure_header(h: Header) -> Result<Measured, Refusal>
    ensures { size_read result ≡ measured 0 0 (header_line h.flags (numbers_of h) ∷ []) }
{
    measure_operands(&header_values(h), 1, 0, Measured { size: 0, next: 0 })
}
