// module.rs: flags, and the shapes of data kinds.
ghost use Rattle.std.specs.Prelude.{◌≡◌};
ghost use Rattle.format.specs.Records.{has, flag_value, shape_of};

use format::module::{DataKind, Flag, Shape};

// Whether a flag is set in the 32-bit two's complement of the header's number.
pub fn contains(flags: i32, flag: Flag) -> bool
    ensures { result ≡ has (flag_value flag) flags }
{
    let bits = flags.cast_unsigned();
    match flag {
        Flag::MustCompile => bits & 1 == 1,
        Flag::DontCompile => (bits >> 1) & 1 == 1,
        Flag::HasHandler => (bits >> 5) & 1 == 1,
        Flag::HasImport => (bits >> 6) & 1 == 1,
    }
}

pub fn shape_of(kind: DataKind) -> Shape
    ensures { result ≡ shape_of kind }
{
    match kind {
        DataKind::Bytes => Shape::Bytes,
        DataKind::Words => Shape::Words(1),
        DataKind::String => Shape::Bytes,
        DataKind::Reals => Shape::Words(2),
        DataKind::Array => Shape::Single(2),
        DataKind::SetArray => Shape::Single(1),
        DataKind::Restore => Shape::Nothing,
        DataKind::Bigs => Shape::Words(2),
    }
}
