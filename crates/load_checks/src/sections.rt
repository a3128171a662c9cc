// What is wrong with the records of a section, in their order. The file was scanned: all of them can be read.
ghost use Rattle.std.specs.Prelude.{◌≡◌};
ghost use Rattle.format.specs.Reading.{many};
ghost use Rattle.law_format.specs.Loops.{leading, Whole, end_of};
ghost use Rattle.law_format.specs.Views.{as_end, as_fault};
ghost use Rattle.format.specs.Sections.{export_at, cases_at, handler_at};
ghost use Rattle.format.specs.Checks.{first_of, export_fault, handler_fault};
ghost use Rattle.load_checks.specs.Checked.{last_checked, cases_checked, handler_checked};

use crate::records::{check_export, check_own, optional};
use file_handlers::{read_case, read_head};
use file_names::read_export;
use format::module::Sizes;
use format::refusal::Refusal;
use format::types::{Cursor, File};
use reader::read_operand;
use values::ranges::below;

#[tactic(auto, using(crate::proofs::Cases::export_stop, crate::proofs::Cases::export_found, crate::proofs::Cases::export_turn, crate::proofs::Cases::none_left))]
pub fn check_exports(file: File, n: usize, c: Cursor, sizes: Sizes) -> Result<(), Refusal>
    ensures { as_fault result ≡ first_of (export_fault sizes.code sizes.types) 0 (leading (export_at file.entry.bytes.now) n c) }
{
    let mut here = c;
    for k in 0..n {
        let Ok((export, next)) = read_export(file, here) else {
            return Ok(());
        };
        check_export(k, export, sizes)?;
        here = next;
    }
    Ok(())
}

// Where the last case of handler k ends, which has a number too: -1 is allowed.
#[tactic(auto, unfolding(law_format::specs::Loops::end_of))]
fn check_last(file: &[u8], k: usize, case: u32, c: Cursor, code: usize) -> Result<Cursor, Refusal>
    ensures { as_end result ≡ end_of (last_checked file.now code k case c) }
{
    let Some((pc, next)) = read_operand(file, c) else {
        return Err(Refusal::ended(8, c));
    };
    if !optional(code, pc) {
        return Err(Refusal::CasePc { handler: k, case });
    }
    Ok(next)
}

// The n cases of handler k before the last, and the last.
#[tactic(auto, using(crate::proofs::Cases::cases_all, crate::proofs::Cases::cases_last, crate::proofs::Cases::case_there, crate::proofs::Cases::case_on, crate::proofs::Cases::case_whole, crate::proofs::Cases::case_stops), unfolding(law_format::specs::Loops::end_of))]
fn check_cases(file: File, k: usize, n: u32, c: Cursor, code: usize) -> Result<Cursor, Refusal>
    requires { Whole (cases_at file.bytes.now n c) }
    ensures { as_end result ≡ end_of (cases_checked file.entry.bytes.now code k n c) }
{
    let mut here = c;
    for j in 0..n {
        let (case, next) = read_case(file, here)?;
        if !below(code, case.pc) {
            return Err(Refusal::CasePc {
                handler: k,
                case: j,
            });
        }
        here = next;
    }
    check_last(file.bytes, k, n, here, code)
}

#[tactic(auto, using(crate::proofs::Cases::count_range, crate::proofs::Cases::count_number, crate::proofs::Cases::count_fits, crate::proofs::Cases::whole_cases, crate::proofs::Cases::head_stops, crate::proofs::Cases::own_stops, crate::proofs::Cases::own_goes_on))]
fn check_handler(file: File, k: usize, c: Cursor, sizes: Sizes) -> Result<Cursor, Refusal>
    requires { Whole (handler_at file.bytes.now c) }
    ensures { as_end result ≡ end_of (handler_checked file.entry.bytes.now sizes.code sizes.types k c) }
{
    let (handler, next) = read_head(file.bytes, c)?;
    check_own(k, handler, sizes)?;
    let cases = handler.cases as u32;
    check_cases(file, k, cases - 1, next, sizes.code)
}

#[tactic(auto, using(crate::proofs::Cases::handler_whole, crate::proofs::Cases::handler_found, crate::proofs::Cases::handler_turn, crate::proofs::Cases::handlers_whole, crate::proofs::Cases::none_left))]
pub fn check_handlers(file: File, n: usize, c: Cursor, sizes: Sizes) -> Result<(), Refusal>
    requires { Whole (many (handler_at file.bytes.now) n c) }
    ensures { as_fault result ≡ first_of (handler_fault sizes.code sizes.types) 0 (leading (handler_at file.entry.bytes.now) n c) }
{
    let mut here = c;
    for k in 0..n {
        here = check_handler(file, k, here, sizes)?;
    }
    Ok(())
}
