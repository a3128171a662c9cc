// Lines of operands, written at a place of the output. Each answers the place past it.
ghost use Rattle.std.specs.Prelude.{[], ◌∷◌, map};
ghost use Rattle.format.specs.Content.{numbers_of};
ghost use Rattle.format.specs.Writing.{operand, header_line};
ghost use Rattle.write_bytes.specs.Laid.{Ready, Laid};
ghost use Rattle.law_format.specs.Cased.{Cased};
ghost use Rattle.write_measure.specs.Heads.{head_line};

use format::module::{Handler, Header};
use write_measure::{head_values, header_values};
use write_pieces::operand::put_operand;

pub fn put_operands(out: &mut [u8], at: usize, values: &[i32]) -> usize
    requires { Ready (map operand values.now) at out.old }
    ensures { Laid (map operand values.now) at out.old result out.new }
{
    let mut place = at;
    for &value in values {
        place = put_operand(out, place, value);
    }
    place
}

pub fn put_one(out: &mut [u8], at: usize, value: i32) -> usize
    requires { Ready (operand value ∷ []) at out.old }
    ensures { Laid (operand value ∷ []) at out.old result out.new }
{
    put_operand(out, at, value)
}

// A handler's packed count has the cases before the last.
pub fn put_head(out: &mut [u8], at: usize, h: Handler) -> usize
    requires { Cased h.cases × Ready (head_line h).parts at out.old }
    ensures { Laid (head_line h).parts at out.old result out.new }
{
    put_operands(out, at, &head_values(h))
}

// The plain magic, flags and the seven numbers.
pub fn put_header(out: &mut [u8], at: usize, h: Header) -> usize
    requires { Ready (header_line h.flags (numbers_of h)).parts at out.old }
    ensures { Laid (header_line h.flags (numbers_of h)).parts at out.old result out.new }
{
    put_operands(out, at, &header_values(h))
}
