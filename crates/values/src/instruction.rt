// instruction.rs: the modes of an instruction together in the addressing byte.
ghost use Rattle.std.specs.Prelude.{◌≡◌, ◌+◌, ◌*◌, ◌<◌};
ghost use Rattle.format.specs.Records.{addressing_byte};

use format::instruction::{AddressMode, MiddleMode};

// The numbers of three modes in one byte.
#[tactic(auto, using(bits::proofs::Shifts::side_by_side))]
pub fn modes_byte(middle: u8, source: u8, destination: u8) -> u8
    requires { (middle < 4) × (source < 8) × (destination < 8) }
    ensures { result ≡ middle * 64 + source * 8 + destination }
{
    (middle << 6) | (source << 3) | destination
}

#[tactic(auto, using(crate::proofs::Modes::mode_bits, crate::proofs::Modes::middle_bits), unfolding(format::specs::Records::addressing_byte))]
pub fn addressing_byte(middle: MiddleMode, source: AddressMode, destination: AddressMode) -> u8
    ensures { result ≡ addressing_byte middle source destination }
{
    modes_byte(middle.into(), source.into(), destination.into())
}
