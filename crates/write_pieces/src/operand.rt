// Operand writing: write_op's shortest forms, into a lent slice at a place.
ghost use Rattle.std.specs.Prelude.{◌≡◌, ◌+◌, ◌*◌, ◌^◌, ◌≤◌, ◌<◌, length};
ghost use Rattle.std.specs.Int.Signed.{mag};
ghost use Rattle.format.specs.Operands.{encode_operand, operand_len, two_bytes, four_bytes};
ghost use Rattle.format.specs.Put.{put};

use crate::put_bits;
use bits::{bits_of, low, magnitude, tagged};

// How many bytes the shortest form of v has; 0 where no form holds v.
#[tactic(auto, using(law_format::proofs::OperandCases::len_one, law_format::proofs::OperandCases::len_two, law_format::proofs::OperandCases::len_four, law_format::proofs::OperandCases::len_none))]
pub fn operand_len(v: i32) -> usize
    ensures { result ≡ operand_len v }
{
    match magnitude(v) {
        0..=0x3F => 1,
        0x40..=0x1FFF => 2,
        0x2000..=0x1FFF_FFFF => 4,
        0x2000_0000..=0xFFFF_FFFF => 0,
    }
}

// u in two bytes, with the form in the top two bits.
#[tactic(auto, using(law_format::proofs::Put::put_two))]
fn put_two(out: &mut [u8], at: usize, u: u32)
    requires { (u < 2 ^ 14) × (at + 2 ≤ length out.old) }
    ensures { out.new ≡ put at (two_bytes (2 * 2 ^ 14 + u)) out.old }
{
    out[at] = tagged(2, u >> 8);
    out[at + 1] = low(u);
}

#[tactic(auto, using(bits::proofs::Shifts::shl_or))]
fn put_four(out: &mut [u8], at: usize, u: u32)
    requires { (u < 2 ^ 30) × (at + 4 ≤ length out.old) }
    ensures { out.new ≡ put at (four_bytes (3 * 2 ^ 30 + u)) out.old }
{
    put_bits(out, at, (3 << 30) | u);
}

// The shortest form of v, written at a place; the place past it.
#[tactic(auto, using(law_format::proofs::OperandCases::encode_one, law_format::proofs::OperandCases::encode_two, crate::proofs::Parts::encode_four, law_format::proofs::OperandCases::bits_lt, law_format::proofs::Put::put_one))]
pub fn put_operand(out: &mut [u8], at: usize, v: i32) -> usize
    requires { (mag v < 2 ^ 29) × (at + length (encode_operand v) ≤ length out.old) }
    ensures { (result ≡ at + length (encode_operand v)) × (out.new ≡ put at (encode_operand v) out.old) }
{
    let n = magnitude(v);
    match n {
        0..=0x3F => {
            out[at] = bits_of(0x40, v) as u8;
            at + 1
        }
        0x40..=0x1FFF => {
            put_two(out, at, bits_of(0x2000, v));
            at + 2
        }
        0x2000..=0xFFFF_FFFF => {
            put_four(out, at, bits_of(0x2000_0000, v));
            at + 4
        }
    }
}
