// The second pass: how many words there are, and the words, from the front, in file order.
ghost use Rattle.std.specs.Prelude.{◌≡◌, [], ◌≤◌, length};
ghost use Rattle.format.specs.Put.{put};
ghost use Rattle.format.specs.Reading as Spec;
ghost use Rattle.format.specs.Sections.{parse};
ghost use Rattle.format.specs.Words.{table_words, words_needed};
ghost use Rattle.load.specs.Whole.{of_read};

use format::module::{EXPORT_WIDTH, INSTRUCTION_WIDTH, ITEM_WIDTH, TYPE_WIDTH};
use load_fill::groups::fill_section;
use load_fill::runs::fill_rows;
use load_survey::Survey;
use rows::Kind;
use rows::groups::Group;

#[tactic(auto, using(crate::proofs::Facts::sum_read, crate::proofs::Facts::few_words))]
pub fn words_needed(survey: Survey) -> usize
    ensures { result ≡ of_read 0 words_needed (parse survey.entry.file.bytes.now Spec.front) }
{
    survey.front.code * INSTRUCTION_WIDTH
        + survey.front.types * TYPE_WIDTH
        + survey.middle.items * ITEM_WIDTH
        + survey.middle.exports * EXPORT_WIDTH
        + survey.back.import_words
        + survey.back.handler_words
}

pub fn fill_tables(survey: Survey, words: &mut [i32])
    requires { of_read 0 words_needed (parse survey.file.bytes.now Spec.front) ≤ length words.old }
    ensures { words.new ≡ put 0 (of_read [] table_words (parse survey.entry.file.bytes.now Spec.front)) words.old }
{
    let file = survey.file;
    let front = survey.front;
    let middle = survey.middle;
    let flags = front.header.header.flags;
    let at = front.at_code;
    let code = fill_rows(file, Kind::Code, front.code, at, words, 0);
    let at = front.at_types;
    let types = fill_rows(file, Kind::Types, front.types, at, words, code.place);
    let at = front.at_items;
    let items = fill_rows(file, Kind::Items, middle.items, at, words, types.place);
    let at = middle.at_exports;
    let exports = fill_rows(file, Kind::Exports, middle.exports, at, words, items.place);
    let at = middle.at_imports;
    let imports = fill_section(file, Group::Imports, flags, at, words, exports.place);
    let at = survey.back.at_handlers;
    fill_section(file, Group::Handlers, flags, at, words, imports);
}
