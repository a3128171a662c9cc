// The part of the lent file that a span says, and the ones of a map.
#![tactic(auto)]

ghost use Rattle.std.specs.Prelude.{◌≡◌, ◌+◌, ◌≤◌, ◌<◌, ◌^◌, length};
ghost use Rattle.format.specs.Operands.{span_of, shown};
ghost use Rattle.format.specs.Records.{ones_of};
ghost use Rattle.spans.specs.Part.{PartOf};

use bits::as_natural;
use format::types::Span;

// Nothing, where it leaves the file.
#[tactic(auto, using(crate::proofs::Outside::part_past), unfolding(format::specs::Operands::shown))]
fn part(file: &[u8], from: usize, count: usize) -> &[u8]
    ensures { PartOf file.entry (span_of from count) result }
{
    if file.len() < from {
        return &file[..0];
    }
    if file.len() - from < count {
        return &file[..0];
    }
    &file[from..from + count]
}

// The part of the caller's slice between the span's ends; an empty part where the span is empty or leaves the file.
pub fn name(file: &[u8], span: Span) -> &[u8]
    ensures { PartOf file.entry span result }
{
    let Some(from) = as_natural(span.start) else {
        return &file[..0];
    };
    let Some(count) = as_natural(span.len) else {
        return &file[..0];
    };
    part(file, from, count)
}

// The ones of few bytes fit sixteen bits, and the compiler then counts many bytes side by side.
#[tactic(auto, using(law_format::proofs::Names::ones_turn, law_format::proofs::Names::ones_done, crate::proofs::Ones::byte_ones))]
fn ones_in_few(few: &[u8]) -> u16
    requires { length few.now ≤ 8000 }
    ensures { result ≡ ones_of few.now }
{
    let mut ones: u16 = 0;
    for byte in few {
        ones += byte.count_ones() as u16;
    }
    ones
}

// A map's ones, of a map that is no longer than a span can be. Most maps have few bytes, and need not be taken apart.
#[tactic(auto, using(crate::proofs::Ones::ones_most, crate::proofs::Ones::ones_split, crate::proofs::Ones::ones_none))]
fn ones_in(map: &[u8]) -> usize
    requires { length map.now < 2 ^ 31 }
    ensures { result ≡ ones_of map.now }
{
    if map.len() <= 8000 {
        return usize::from(ones_in_few(map));
    }
    let mut ones: usize = 0;
    for few in map.chunks(8000) {
        ones += usize::from(ones_in_few(few));
    }
    ones
}

// The pointer count of a map: the number of ones in it.
#[tactic(auto, using(crate::proofs::Outside::shown_length))]
pub fn count_pointers(file: &[u8], map: Span) -> usize
    ensures { result ≡ ones_of (shown file.now map) }
{
    ones_in(name(file, map))
}
