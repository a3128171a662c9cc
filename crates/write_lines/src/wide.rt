// Refusal 21: the first operand of a row, in writing order, that no form holds.
ghost use Rattle.std.specs.Prelude.{◌≡◌};
ghost use Rattle.format.specs.Content.{type_shown, item_shown, export_shown, case_shown};
ghost use Rattle.format.specs.Views.{maybe};
ghost use Rattle.format.specs.Writing.{registers, middle_register, instruction_line, type_line, item_line, export_line, case_line};
ghost use Rattle.write_lines.specs.Lines.{wide_one, wide_two, first_wide, WideIn};

use format::instruction::{AddressMode, Instruction, MiddleMode, MiddleOperand, Operand};
use format::module::{DataItem, ExceptionCase, ExportEntry};
use format::types::TypeDescriptor;
use write_pieces::operand::operand_len;

#[tactic(auto, using(crate::proofs::Forms::no_form, crate::proofs::Forms::a_form))]
fn wide_one(v: i32) -> Option<i32>
    ensures { maybe result ≡ wide_one v }
{
    (operand_len(v) == 0).then_some(v)
}

fn wide_two(a: i32, b: i32) -> Option<i32>
    ensures { maybe result ≡ wide_two a b }
{
    wide_one(a).or(wide_one(b))
}

#[tactic(auto, using(crate::proofs::Forms::no_register, crate::proofs::Forms::one_register_lem, crate::proofs::Forms::two_registers_lem, crate::proofs::Forms::wide_none, crate::proofs::Forms::wide_only, crate::proofs::Forms::wide_both))]
fn wide_registers(o: Operand) -> Option<i32>
    ensures { maybe result ≡ first_wide (registers o) }
{
    match o.mode {
        AddressMode::OffsetIndirectMp | AddressMode::OffsetIndirectFp | AddressMode::Immediate => {
            wide_one(o.register1)
        }
        AddressMode::None => None,
        AddressMode::OffsetDoubleIndirectMp | AddressMode::OffsetDoubleIndirectFp => {
            wide_two(o.register1, o.register2)
        }
    }
}

#[tactic(auto, using(crate::proofs::Forms::no_middle, crate::proofs::Forms::one_middle, crate::proofs::Forms::wide_none, crate::proofs::Forms::wide_only))]
fn wide_middle(o: MiddleOperand) -> Option<i32>
    ensures { maybe result ≡ first_wide (middle_register o) }
{
    match o.mode {
        MiddleMode::None => None,
        MiddleMode::SmallImmediate | MiddleMode::SmallOffsetFp | MiddleMode::SmallOffsetMp => {
            wide_one(o.register1)
        }
    }
}

#[tactic(auto, using(crate::proofs::Forms::wide_instruction))]
pub fn wide_instruction(i: Instruction) -> Option<i32>
    ensures { maybe result ≡ first_wide (instruction_line i).parts }
{
    wide_middle(i.middle)
        .or(wide_registers(i.source))
        .or(wide_registers(i.destination))
}

// A map's length is never wide.
#[tactic(auto, using(crate::proofs::Forms::shown_most, crate::proofs::Forms::wide_type, bits::proofs::Signs::kept))]
pub fn wide_type(t: TypeDescriptor) -> Option<i32>
    ensures { WideIn (λ file. type_line (type_shown file t)) result }
{
    wide_two(t.id, t.size)
}

// Nor is an inline count.
#[tactic(auto, using(crate::proofs::Forms::wide_item, bits::proofs::Signs::kept))]
pub fn wide_item(d: DataItem) -> Option<i32>
    ensures { WideIn (λ file. item_line (item_shown file d)) result }
{
    wide_two(d.count, d.offset)
}

#[tactic(auto, using(crate::proofs::Forms::or_none), unfolding(crate::specs::Lines::first_wide))]
pub fn wide_export(e: ExportEntry) -> Option<i32>
    ensures { WideIn (λ file. export_line (export_shown file e)) result }
{
    wide_two(e.pc, e.frame)
}

#[tactic(auto, using(crate::proofs::Forms::or_none), unfolding(crate::specs::Lines::first_wide))]
pub fn wide_case(c: ExceptionCase) -> Option<i32>
    ensures { WideIn (λ file. case_line (case_shown file c)) result }
{
    wide_one(c.pc)
}
