// The first pass over the whole file, in three parts: where each section stands, how many records it has, how many words they need.
#![tactic(auto)]

ghost use Rattle.std.specs.Prelude.{◌≡◌, IfOk, IfErr};
ghost use Rattle.format.specs.Reading as Spec;
ghost use Rattle.format.specs.Sections.{counted_by, parse};
ghost use Rattle.law_format.specs.Views.{as_step};
ghost use Rattle.rows.specs.Rows.{row_at};
ghost use Rattle.load_survey.specs.Survey.{how_many, FrontIs, MiddleIs, BackIs, Surveyed};

use file_header::read_header;
use file_names::read_named;
use file_pieces::counted;
use format::module::PlacedHeader;
use format::refusal::Refusal;
use format::types::{Cursor, File, Placed, Span};
use load_scan::runs::scan_rows;
use load_scan::sections::{scan_items, scan_section};
use rows::Kind;
use rows::groups::Group;

// 1 to 3: header, code, types.
#[derive(Clone, Copy)]
pub struct Front {
    pub header: PlacedHeader,
    pub code: usize,
    pub types: usize,
    pub at_code: Cursor,
    pub at_types: Cursor,
    pub at_items: Cursor,
}

// 4 to 6: data, the module's name, exports.
#[derive(Clone, Copy)]
pub struct Middle {
    pub items: usize,
    pub name: Span,
    pub exports: usize,
    pub at_name: Cursor,
    pub at_exports: Cursor,
    pub at_imports: Cursor,
}

// 7 and 8: imports, handlers.
#[derive(Clone, Copy)]
pub struct Back {
    pub imports: usize,
    pub import_words: usize,
    pub handlers: usize,
    pub handler_words: usize,
    pub at_handlers: Cursor,
    pub end: Cursor,
}

// A file whose every record was read once.
#[derive(Clone, Copy)]
pub struct Survey<'a> {
    pub file: File<'a>,
    pub front: Front,
    pub middle: Middle,
    pub back: Back,
    pub ghost surveyed: { Surveyed file.bytes.now front middle back },
}

// As many rows as the header says, and where they end.
#[tactic(auto, using(crate::proofs::Facts::count_refused, crate::proofs::Facts::rows_stop, crate::proofs::Facts::rows_end))]
fn scan_counted(
    file: File,
    kind: Kind,
    section: u8,
    size: Placed,
    c: Cursor,
) -> Result<(usize, Cursor), Refusal>
    ensures { as_step result ≡ how_many (counted_by section (row_at file.entry.bytes.now kind) size c) }
{
    let (count, d) = counted(section, size, c)?;
    let next = scan_rows(file, kind, count, d)?;
    Ok((count, next))
}

#[tactic(auto, using(crate::proofs::Facts::code_rows, crate::proofs::Facts::type_rows, crate::proofs::Facts::header_fails, crate::proofs::Facts::code_fails, crate::proofs::Facts::types_fail))]
pub fn survey_front(file: File) -> Result<Front, Refusal>
    ensures ok { IfOk result (λ front. FrontIs file.entry.bytes.now front) }
    ensures err { IfErr result (λ why. parse file.entry.bytes.now Spec.front ≡ Spec.refused why) }
{
    let (header, at_code) = read_header(file, Cursor::front())?;
    let (code, at_types) = scan_counted(file, Kind::Code, 2, header.code, at_code)?;
    let (types, at_items) = scan_counted(file, Kind::Types, 3, header.types, at_types)?;
    Ok(Front {
        header,
        code,
        types,
        at_code,
        at_types,
        at_items,
    })
}

#[tactic(auto, using(crate::proofs::Facts::export_rows, crate::proofs::Facts::items_fail, crate::proofs::Facts::name_fails, crate::proofs::Facts::exports_fail))]
pub fn survey_middle(file: File, front: Front) -> Result<Middle, Refusal>
    requires { FrontIs file.bytes.now front }
    ensures ok { IfOk result (λ middle. MiddleIs file.entry.bytes.now front middle) }
    ensures err { IfErr result (λ why. parse file.entry.bytes.now Spec.front ≡ Spec.refused why) }
{
    let (items, at_name) = scan_items(file, front.at_items)?;
    let (name, at_exports) = read_named(file, 5, at_name)?;
    let export_size = front.header.exports;
    let (exports, at_imports) = scan_counted(file, Kind::Exports, 6, export_size, at_exports)?;
    Ok(Middle {
        items,
        name,
        exports,
        at_name,
        at_exports,
        at_imports,
    })
}

#[tactic(auto, using(crate::proofs::Facts::import_groups, crate::proofs::Facts::handler_groups, crate::proofs::Facts::imports_fail, crate::proofs::Facts::handlers_fail))]
pub fn survey_back(file: File, front: Front, middle: Middle) -> Result<Back, Refusal>
    requires { FrontIs file.bytes.now front × MiddleIs file.bytes.now front middle }
    ensures ok { IfOk result (λ back. BackIs file.entry.bytes.now front middle back) }
    ensures err { IfErr result (λ why. parse file.entry.bytes.now Spec.front ≡ Spec.refused why) }
{
    let flags = front.header.header.flags;
    let ((imports, import_words), at_handlers) = scan_section(
        file,
        Group::Imports,
        flags,
        middle.at_imports,
    )?;
    let ((handlers, handler_words), end) = scan_section(file, Group::Handlers, flags, at_handlers)?;
    Ok(Back {
        imports,
        import_words,
        handlers,
        handler_words,
        at_handlers,
        end,
    })
}

impl<'a> Survey<'a> {
    pub fn of(file: File<'a>) -> Result<Survey<'a>, Refusal>
        ensures ok { IfOk result (λ s. s.file ≡ file.entry) }
        ensures err { IfErr result (λ why. parse file.entry.bytes.now Spec.front ≡ Spec.refused why) }
    {
        let front = survey_front(file)?;
        let middle = survey_middle(file, front)?;
        let back = survey_back(file, front, middle)?;
        Ok(Survey {
            file,
            front,
            middle,
            back,
        })
    }
}
