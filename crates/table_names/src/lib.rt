// 6 and 7: exports of the table words, the functions of an import module, and how many these are.
// The readers are alike in two calls only, `has_room` and `then_some`: a trait of records would be longer than they are.
#![tactic(auto)]

ghost use Rattle.std.specs.Prelude.{◌≡◌, ◌+◌, ◌≤◌, length};
ghost use Rattle.format.specs.Words.{export_width, function_width, import_width};
ghost use Rattle.format.specs.WellFormed.{export_there, export_from, function_there, function_from, function_count_from};
ghost use Rattle.law_format.specs.Views.{record_at};

use bits::as_natural;
use format::module::{EXPORT_WIDTH, ExportEntry, FUNCTION_WIDTH, IMPORT_WIDTH, ImportEntry};
use format::types::Span;
use table_pieces::{has_room, is_name};

// As the words stand.
pub fn export_there(words: &[i32], w: usize) -> ExportEntry
    requires { w + export_width ≤ length words.now }
    ensures { result ≡ export_there words.now w }
{
    ExportEntry {
        pc: words[w],
        frame: words[w + 1],
        signature: words[w + 2],
        name: Span {
            start: words[w + 3],
            len: words[w + 4],
        },
    }
}

#[tactic(auto, unfolding(format::specs::WellFormed::export_from))]
pub fn export_from(file: &[u8], words: &[i32], w: usize) -> Option<ExportEntry>
    ensures { record_at export_width w result ≡ export_from file.now words.now w }
{
    if !has_room(words, EXPORT_WIDTH, w) {
        return None;
    }
    let export = export_there(words, w);
    is_name(file, export.name).then_some(export)
}

// As the words stand.
pub fn function_there(words: &[i32], w: usize) -> ImportEntry
    requires { w + function_width ≤ length words.now }
    ensures { result ≡ function_there words.now w }
{
    ImportEntry {
        signature: words[w],
        name: Span {
            start: words[w + 1],
            len: words[w + 2],
        },
    }
}

#[tactic(auto, unfolding(format::specs::WellFormed::function_from))]
pub fn function_from(file: &[u8], words: &[i32], w: usize) -> Option<ImportEntry>
    ensures { record_at function_width w result ≡ function_from file.now words.now w }
{
    if !has_room(words, FUNCTION_WIDTH, w) {
        return None;
    }
    let function = function_there(words, w);
    is_name(file, function.name).then_some(function)
}

#[tactic(auto, unfolding(format::specs::WellFormed::function_count_from))]
pub fn function_count_from(words: &[i32], w: usize) -> Option<usize>
    ensures { record_at import_width w result ≡ function_count_from words.now w }
{
    if !has_room(words, IMPORT_WIDTH, w) {
        return None;
    }
    as_natural(words[w])
}
