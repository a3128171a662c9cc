// The bytes of an instruction's line, written at a place of the output. Each answers the place past them.
ghost use Rattle.std.specs.Prelude.{◌≡◌};
ghost use Rattle.write_bytes.specs.Laid.{Ready, Laid};
ghost use Rattle.write_code.specs.There.{registers_there, middle_there, addressing_there, parts_there, GoodOperand, GoodMiddle, GoodWords};

use crate::byte_there;
use values::instruction::modes_byte;
use write_pieces::operand::put_operand;
use write_pieces::put_byte;

pub fn addressing_there(words: &[i32], w: usize) -> u8
    requires { GoodWords words.now w }
    ensures { result ≡ addressing_there words.now w }
{
    let middle = byte_there(words, w + 4);
    let source = byte_there(words, w + 1);
    let destination = byte_there(words, w + 6);
    modes_byte(middle, source, destination)
}

fn put_registers(words: &[i32], w: usize, out: &mut [u8], at: usize) -> usize
    requires { GoodOperand words.now w × Ready (registers_there words.now w) at out.old }
    ensures { Laid (registers_there words.now w) at out.old result out.new }
{
    match byte_there(words, w) {
        0..=2 => put_operand(out, at, words[w + 1]),
        3 => at,
        4..=255 => {
            let next = put_operand(out, at, words[w + 1]);
            put_operand(out, next, words[w + 2])
        }
    }
}

fn put_middle(words: &[i32], w: usize, out: &mut [u8], at: usize) -> usize
    requires { GoodMiddle words.now w × Ready (middle_there words.now w) at out.old }
    ensures { Laid (middle_there words.now w) at out.old result out.new }
{
    match byte_there(words, w) {
        0 => at,
        1..=255 => put_operand(out, at, words[w + 1]),
    }
}

pub fn put_there(words: &[i32], w: usize, out: &mut [u8], at: usize) -> usize
    requires { GoodWords words.now w × Ready (parts_there words.now w) at out.old }
    ensures { Laid (parts_there words.now w) at out.old result out.new }
{
    let a = put_byte(out, at, byte_there(words, w));
    let b = put_byte(out, a, addressing_there(words, w));
    let c = put_middle(words, w + 4, out, b);
    let d = put_registers(words, w + 1, out, c);
    put_registers(words, w + 6, out, d)
}
