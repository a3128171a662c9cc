// 10 to 19, in their order.
ghost use Rattle.std.specs.Prelude.{◌≡◌};
ghost use Rattle.std.proofs.Math.Option.{none};
ghost use Rattle.format.specs.Checks.{first_of, handler_fault, fault_in};
ghost use Rattle.format.specs.Reading as Spec;
ghost use Rattle.format.specs.Sections.{handler_at, under_flag, parse};
ghost use Rattle.law_format.specs.Loops.{Whole};
ghost use Rattle.law_format.specs.Views.{as_fault};
ghost use Rattle.load.specs.Whole.{of_read};

use file_pieces::read_count;
use format::module::{Flag, Sizes};
use format::refusal::Refusal;
use format::types::{Cursor, File};
use load_checks::records::check_header;
use load_checks::sections::{check_exports, check_handlers};
use load_survey::Survey;
use values::module::contains;

// The handlers of section 8, where it stands.
#[tactic(auto, using(law_format::proofs::Parsed::flag_not, law_format::proofs::Parsed::flag_count, law_format::proofs::Whole::not_whole, crate::proofs::Facts::flag_many, crate::proofs::Facts::flag_said, bits::proofs::Signs::kept))]
fn check_handler_section(file: File, flags: i32, c: Cursor, sizes: Sizes) -> Result<(), Refusal>
    requires { Whole (under_flag file.bytes.now 32 flags 8 (handler_at file.bytes.now) c) }
    ensures { as_fault result ≡ of_read none (first_of (handler_fault sizes.code sizes.types) 0) (under_flag file.entry.bytes.now 32 flags 8 (handler_at file.entry.bytes.now) c) }
{
    if !contains(flags, Flag::HasHandler) {
        return Ok(());
    }
    let (count, next) = read_count(file.bytes, 8, c)?;
    check_handlers(file, count, next, sizes)
}

#[tactic(auto, using(crate::proofs::Facts::late, crate::proofs::Facts::whole_is, bits::proofs::Signs::kept))]
pub fn check_late(survey: Survey) -> Result<(), Refusal>
    ensures { as_fault result ≡ of_read none fault_in (parse survey.entry.file.bytes.now Spec.front) }
{
    let header = survey.front.header.header;
    let sizes = Sizes {
        code: survey.front.code,
        types: survey.front.types,
    };
    check_header(header, sizes)?;
    let middle = survey.middle;
    check_exports(survey.file, middle.exports, middle.at_exports, sizes)?;
    check_handler_section(survey.file, header.flags, survey.back.at_handlers, sizes)
}
