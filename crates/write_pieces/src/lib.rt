// Bytes, a word and a name, written at a place of the output; an operand in the module beside. Each answers the place past it.
#![tactic(auto)]

pub mod operand;

ghost use Rattle.std.specs.Prelude.{◌≡◌, [], ◌∷◌, ◌++◌, ◌+◌, ◌≤◌, length};
ghost use Rattle.format.specs.Operands.{four_bytes, encode_word};
ghost use Rattle.format.specs.Put.{put};

use bits::low;

#[tactic(auto, using(law_format::proofs::Put::put_one))]
pub fn put_byte(out: &mut [u8], at: usize, b: u8) -> usize
    requires { at + 1 ≤ length out.old }
    ensures { (result ≡ at + 1) × (out.new ≡ put at (b ∷ []) out.old) }
{
    out[at] = b;
    at + 1
}

// One by one: a copy of the whole would be a call of C's memmove, which an archive for C then needs from outside.
#[tactic(auto, using(crate::proofs::Copy::copied_none, crate::proofs::Copy::copied_more, crate::proofs::Copy::copied_all))]
pub fn put_bytes(out: &mut [u8], at: usize, bytes: &[u8]) -> usize
    requires { at + length bytes.now ≤ length out.old }
    ensures { (result ≡ at + length bytes.now) × (out.new ≡ put at bytes.now out.old) }
{
    for (i, byte) in bytes.iter().enumerate() {
        out[at + i] = *byte;
    }
    at + bytes.len()
}

// A name and its zero byte.
#[tactic(auto, using(crate::proofs::Parts::length_ended, crate::proofs::Parts::put_last))]
pub fn put_ended(out: &mut [u8], at: usize, name: &[u8]) -> usize
    requires { at + length (name.now ++ 0 ∷ []) ≤ length out.old }
    ensures { (result ≡ at + length (name.now ++ 0 ∷ [])) × (out.new ≡ put at (name.now ++ 0 ∷ []) out.old) }
{
    let end = put_bytes(out, at, name);
    put_byte(out, end, 0)
}

// Four bytes of a number, the most significant first.
#[tactic(auto, using(law_format::proofs::Put::put_four))]
pub fn put_bits(out: &mut [u8], at: usize, u: u32)
    requires { at + 4 ≤ length out.old }
    ensures { out.new ≡ put at (four_bytes u) out.old }
{
    out[at] = low(u >> 24);
    out[at + 1] = low(u >> 16);
    out[at + 2] = low(u >> 8);
    out[at + 3] = low(u);
}

#[tactic(auto, using(law_format::proofs::OperandBack::length_word), unfolding(format::specs::Operands::encode_word))]
pub fn put_word(out: &mut [u8], at: usize, v: i32) -> usize
    requires { at + length (encode_word v) ≤ length out.old }
    ensures { (result ≡ at + length (encode_word v)) × (out.new ≡ put at (encode_word v) out.old) }
{
    put_bits(out, at, v.cast_unsigned());
    at + 4
}
