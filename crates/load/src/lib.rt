// load: a file's module, with its table words in the lent run; or one refusal, and the run as it was lent.
#![tactic(auto)]

mod late;
mod tables;

ghost use Rattle.std.specs.Prelude.{◌≡◌, ℕ, ◌<◌};
ghost use Rattle.format.specs.Load.{load_of};
ghost use Rattle.format.specs.Operands.{byte};
ghost use Rattle.format.specs.Reading as Spec;
ghost use Rattle.format.specs.Sections.{parse};
ghost use Rattle.load.specs.Whole.{besides};

use format::module::{Loaded, Module};
use format::refusal::Refusal;
use format::types::File;
use load_survey::Survey;

// What comes beside the words.
#[tactic(auto, using(crate::proofs::Facts::small_items, crate::proofs::Facts::small_imports, crate::proofs::Facts::small_handlers, crate::proofs::Facts::as_number, crate::proofs::Facts::module_is))]
fn module_of(survey: Survey) -> Module
    ensures { besides (parse survey.entry.file.bytes.now Spec.front) result }
{
    Module {
        header: survey.front.header.header,
        name: survey.middle.name,
        items: survey.middle.items as i32,
        imports: survey.back.imports as i32,
        handlers: survey.back.handlers as i32,
    }
}

// A file that was surveyed: the late checks, then the room, then the words.
#[tactic(auto, using(law_format::proofs::Loads::load_fault, crate::proofs::Facts::parsed, crate::proofs::Facts::limit, crate::proofs::Facts::late_is, crate::proofs::Facts::needed_is, crate::proofs::Facts::beside_is, crate::proofs::Facts::few, crate::proofs::Facts::whole))]
fn load_surveyed(survey: Survey, words: &mut [i32]) -> Result<Loaded, Refusal>
    ensures { load_of survey.entry.file.bytes.now words.old ≡ (result, words.new) }
{
    late::check_late(survey)?;
    let needed = tables::words_needed(survey);
    if words.len() < needed {
        return Err(Refusal::FewWords {
            needed: needed as u32,
        });
    }
    tables::fill_tables(survey, words);
    Ok(Loaded {
        module: module_of(survey),
        used: survey.back.end.at,
        needed,
    })
}

// The second clause hands on to a caller what is known of every lent file, and what a list of numbers does not say: that it is bytes.
#[tactic(auto, using(law_format::proofs::Loads::load_large, law_format::proofs::Loads::load_parse))]
pub fn load(file: &[u8], words: &mut [i32]) -> Result<Loaded, Refusal>
    ensures answer { load_of file.now words.old ≡ (result, words.new) }
    ensures bytes { (i : ℕ) → byte file.now i < 256 }
{
    let file = File::new(file)?;
    let survey = Survey::of(file)?;
    load_surveyed(survey, words)
}
