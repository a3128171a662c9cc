// What each record of the table words is asked: whether it lies inside the words, and whether its spans and names lie inside the file.
#![tactic(auto)]

ghost use Rattle.std.specs.Prelude.{◌≡◌, ◌+◌, min, leb, length};
ghost use Rattle.format.specs.Records.{word_limit};
ghost use Rattle.format.specs.Operands.{zero_in};
ghost use Rattle.format.specs.WellFormed as Spec;
ghost use Rattle.table_pieces.specs.Bytes.{byte_of};

use bits::as_natural;
use format::module::WORD_LIMIT;
use format::types::Span;
use spans::name;

// Fewer bytes are looked at one by one.
const FEW: usize = 4;

// Whether a record of `width` words whose first is at w lies inside the words that are looked at.
pub fn has_room(words: &[i32], width: usize, w: usize) -> bool
    ensures { result ≡ leb (w + width) (min (length words.now) word_limit) }
{
    let limit = words.len().min(WORD_LIMIT);
    if limit < width {
        return false;
    }
    w <= limit - width
}

pub fn is_span(file: &[u8], s: Span) -> bool
    ensures { result ≡ Spec.is_span file.now s }
{
    let Some(from) = as_natural(s.start) else {
        return false;
    };
    let Some(count) = as_natural(s.len) else {
        return false;
    };
    from + count <= file.len()
}

// The search of the library, in a function of its own: for a few bytes its call costs more than they do.
#[inline(never)]
fn many_nonzero(bytes: &[u8]) -> bool
    ensures { result ≡ Spec.is_none (zero_in bytes.now) }
{
    !bytes.contains(&0)
}

#[tactic(auto, using(crate::proofs::Facts::zero_met, crate::proofs::Facts::zero_not_yet, crate::proofs::Facts::zero_never))]
fn few_nonzero(bytes: &[u8]) -> bool
    ensures { result ≡ Spec.is_none (zero_in bytes.now) }
{
    for byte in bytes {
        if *byte == 0 {
            return false;
        }
    }
    true
}

// Whether no byte is zero.
fn all_nonzero(bytes: &[u8]) -> bool
    ensures { result ≡ Spec.is_none (zero_in bytes.now) }
{
    if bytes.len() < FEW {
        few_nonzero(bytes)
    } else {
        many_nonzero(bytes)
    }
}

pub fn is_name(file: &[u8], s: Span) -> bool
    ensures { result ≡ Spec.is_name file.now s }
{
    is_span(file, s) && all_nonzero(name(file, s))
}

// A word as a byte; where it is none, 255, which is no opcode, mode or kind.
pub fn byte_of(v: i32) -> u8
    ensures { result ≡ byte_of v }
{
    u8::try_from(v).unwrap_or(255)
}
