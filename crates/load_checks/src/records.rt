// What is wrong with one record.
ghost use Rattle.std.specs.Prelude.{◌≡◌, ◌&&◌, ◌||◌, suc, eqb, pos};
ghost use Rattle.std.specs.Int.Signed.{lt_z};
ghost use Rattle.format.specs.Checks as Spec;
ghost use Rattle.format.specs.Records.{has};
ghost use Rattle.law_format.specs.Views.{as_fault};

use bits::as_natural;
use format::module::{ExportEntry, Flag, Handler, Header, Sizes};
use format::refusal::Refusal;
use values::module::contains;
use values::ranges::below;

// Any negative number, or 0..n-1.
fn under(n: usize, v: i32) -> bool
    ensures { result ≡ lt_z v (pos n) }
{
    v < 0 || below(n, v)
}

// 0..n
fn up_to(n: usize, v: i32) -> bool
    ensures { result ≡ Spec.below (suc n) v }
{
    as_natural(v).is_some_and(|k| k <= n)
}

// -1, or 0..n-1.
pub fn optional(n: usize, v: i32) -> bool
    ensures { result ≡ (Spec.minus_one v || Spec.below n v) }
{
    v == -1 || below(n, v)
}

// With at least one type.
fn entry_type_fits(types: usize, v: i32) -> bool
    ensures { result ≡ (eqb types 0 || Spec.minus_one v || Spec.below types v) }
{
    types == 0 || optional(types, v)
}

fn frame_fits(types: usize, v: i32) -> bool
    ensures { result ≡ (eqb types 0 || lt_z v (pos types)) }
{
    types == 0 || under(types, v)
}

fn both_compile_flags(flags: i32) -> bool
    ensures { result ≡ (has 1 flags && has 2 flags) }
{
    contains(flags, Flag::MustCompile) && contains(flags, Flag::DontCompile)
}

// 10, 11, 12.
#[tactic(auto, unfolding(format::specs::Checks::header_fault))]
pub fn check_header(header: Header, sizes: Sizes) -> Result<(), Refusal>
    ensures { as_fault result ≡ Spec.header_fault sizes.code sizes.types header }
{
    let pc = header.entry_pc;
    if !optional(sizes.code, pc) {
        return Err(Refusal::EntryPc { value: pc });
    }
    let entry_type = header.entry_type;
    if !entry_type_fits(sizes.types, entry_type) {
        return Err(Refusal::EntryType { value: entry_type });
    }
    let flags = header.flags;
    if both_compile_flags(flags) {
        return Err(Refusal::BothFlags { flags });
    }
    Ok(())
}

// 13, 14, of export k.
#[tactic(auto, unfolding(format::specs::Checks::export_fault))]
pub fn check_export(k: usize, e: ExportEntry, sizes: Sizes) -> Result<(), Refusal>
    ensures { as_fault result ≡ Spec.export_fault sizes.code sizes.types k e }
{
    let pc = e.pc;
    if !under(sizes.code, pc) {
        return Err(Refusal::ExportPc {
            export: k,
            value: pc,
        });
    }
    let frame = e.frame;
    if !frame_fits(sizes.types, frame) {
        return Err(Refusal::ExportFrame {
            export: k,
            value: frame,
        });
    }
    Ok(())
}

// 16, 17, 18, of handler k.
#[tactic(auto, unfolding(format::specs::Checks::range_fault))]
fn check_range(k: usize, h: Handler, sizes: Sizes) -> Result<(), Refusal>
    ensures { as_fault result ≡ Spec.range_fault sizes.code sizes.types k h }
{
    let end = h.end;
    if !up_to(sizes.code, end) {
        return Err(Refusal::HandlerEnd {
            handler: k,
            value: end,
        });
    }
    if end <= h.begin {
        return Err(Refusal::HandlerRange { handler: k, end });
    }
    let descriptor = h.descriptor;
    if !optional(sizes.types, descriptor) {
        return Err(Refusal::HandlerType {
            handler: k,
            value: descriptor,
        });
    }
    Ok(())
}

// 15 to 18, of handler k.
#[tactic(auto, unfolding(format::specs::Checks::own_fault))]
pub fn check_own(k: usize, h: Handler, sizes: Sizes) -> Result<(), Refusal>
    ensures { as_fault result ≡ Spec.own_fault sizes.code sizes.types k h }
{
    let begin = h.begin;
    if !below(sizes.code, begin) {
        return Err(Refusal::HandlerBegin {
            handler: k,
            value: begin,
        });
    }
    check_range(k, h, sizes)
}
