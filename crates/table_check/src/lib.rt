// The check of lent tables; any module, file and words may be handed in. Refusal 1, then 22: what lies outside the words comes first, then the records in file order.
#![tactic(auto)]

pub mod tables;

ghost use Rattle.std.specs.Prelude.{◌≡◌, IfOk};
ghost use Rattle.format.specs.Views.{maybe};
ghost use Rattle.format.specs.WellFormed.{magic_right};
ghost use Rattle.table_check.specs.Answer.{places_in};
ghost use Rattle.table_check.specs.Laid.{outside_right, three_of, counts_of, sizes_of, PlacesSays, CheckSays};

use crate::tables::Tables;
use bits::as_natural;
use format::module::{Header, Module, SMAGIC, Sizes, XMAGIC};
use format::refusal::Refusal;
use format::types::{File, Span};
use rows::Kind;
use rows::groups::Group;
use table_groups::check_groups;
use table_pieces::{is_name, is_span};
use table_rows::check_rows;

// How many records there are of each kind.
#[derive(Clone, Copy)]
pub struct Counts {
    pub code: usize,
    pub types: usize,
    pub items: usize,
    pub exports: usize,
    pub imports: usize,
    pub handlers: usize,
}

impl Counts {
    // What a pc, a frame type and a handler are held against.
    pub fn sizes(self) -> Sizes
        ensures { result ≡ sizes_of self }
    {
        Sizes {
            code: self.code,
            types: self.types,
        }
    }
}

// The words at which each section begins, and where the last ends. The code begins at word 0.
#[derive(Clone, Copy)]
pub struct Places {
    pub counts: Counts,
    pub at_types: usize,
    pub at_items: usize,
    pub at_exports: usize,
    pub at_imports: usize,
    pub at_handlers: usize,
    pub end: usize,
}

// One of the two magics, with an empty signature at place 0 under the plain one.
fn magic_right(file: &[u8], header: Header) -> bool
    ensures { result ≡ magic_right file.now header }
{
    (header.magic == XMAGIC && header.signature == Span { start: 0, len: 0 })
        || (header.magic == SMAGIC && is_span(file, header.signature))
}

fn outside_right(m: Module, file: &[u8]) -> bool
    ensures { result ≡ outside_right file.now m }
{
    magic_right(file, m.header) && is_name(file, m.name)
}

// Three counts, none of them negative.
fn three_counts(a: i32, b: i32, c: i32) -> Option<(usize, usize, usize)>
    ensures { maybe result ≡ three_of a b c }
{
    Some((as_natural(a)?, as_natural(b)?, as_natural(c)?))
}

fn counts_of(m: Module) -> Option<Counts>
    ensures { maybe result ≡ counts_of m }
{
    let header = m.header;
    let (code, types, exports) = three_counts(
        header.code_size,
        header.type_size,
        header.export_size,
    )?;
    let (items, imports, handlers) = three_counts(m.items, m.imports, m.handlers)?;
    Some(Counts {
        code,
        types,
        items,
        exports,
        imports,
        handlers,
    })
}

fn check_sections(file: &[u8], words: &[i32], counts: Counts) -> Result<Places, Refusal>
    ensures { PlacesSays file.now words.now counts result }
{
    let at_types = check_rows(file, words, Kind::Code, counts.code, 0)?;
    let at_items = check_rows(file, words, Kind::Types, counts.types, at_types)?;
    let at_exports = check_rows(file, words, Kind::Items, counts.items, at_items)?;
    let at_imports = check_rows(file, words, Kind::Exports, counts.exports, at_exports)?;
    let at_handlers = check_groups(file, words, Group::Imports, counts.imports, at_imports)?;
    let end = check_groups(file, words, Group::Handlers, counts.handlers, at_handlers)?;
    Ok(Places {
        counts,
        at_types,
        at_items,
        at_exports,
        at_imports,
        at_handlers,
        end,
    })
}

// What every operation on tables asks first.
#[tactic(auto, using(crate::proofs::Stages::too_large, crate::proofs::Stages::outside_bad, crate::proofs::Stages::counts_bad))]
pub fn check<'a>(m: Module, file: &'a [u8], words: &'a [i32]) -> Result<Tables<'a>, Refusal>
    ensures same { IfOk result (λ t. (t.module ≡ m) × (t.file.bytes ≡ file.entry) × (t.words ≡ words.entry)) }
    ensures says { CheckSays m file.entry.now words.entry.now (places_in result) }
{
    let lent = File::new(file)?;
    if !outside_right(m, file) {
        return Err(Refusal::NotWellFormed { place: 0 });
    }
    let Some(counts) = counts_of(m) else {
        return Err(Refusal::NotWellFormed { place: 0 });
    };
    let places = check_sections(file, words, counts)?;
    Ok(Tables {
        module: m,
        file: lent,
        words,
        places,
    })
}
