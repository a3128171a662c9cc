// An instruction's bytes with no branch on the forms of its operands: four bytes are stored for each of its five registers, and those past a form,
// or for a register that is not used, are stored again by what follows.
ghost use Rattle.std.specs.Prelude.{◌≡◌, cond, [], ◌+◌, ◌^◌, ◌≤◌, ◌<◌, length};
ghost use Rattle.std.proofs.Math.Option.{none};
ghost use Rattle.std.specs.Int.Signed.{mag};
ghost use Rattle.format.specs.Operands.{encode_operand};
ghost use Rattle.write_lines.specs.Lines.{bytes_of, first_wide};
ghost use Rattle.write_code.specs.There.{registers_there, middle_there, parts_there, GoodOperand, GoodMiddle, GoodWords};
ghost use Rattle.write_code.specs.Over.{mask_of, shift_of, tag_of, Formed, Over};

use crate::byte_there;
use crate::bytes::addressing_there;
use crate::size::{more, used_middle, used_registers};
use bits::magnitude;
use write_pieces::{put_bits, put_byte};

// A form at the front of four bytes: what its bits are masked by, how far they stand from the end, and what stands above them.
#[derive(Clone, Copy)]
struct Form {
    mask: u32,
    shift: u32,
    tag: u32,
}

// Constants, so that none of them is a branch.
fn form_of(n: u32) -> Form
    ensures { (result.mask ≡ mask_of n) × (result.shift ≡ shift_of n) × (result.tag ≡ tag_of n) }
{
    match n {
        0..=0x3F => Form {
            mask: 0x7F,
            shift: 24,
            tag: 0,
        },
        0x40..=0x1FFF => Form {
            mask: 0x3FFF,
            shift: 16,
            tag: 0x8000_0000,
        },
        0x2000..=0xFFFF_FFFF => Form {
            mask: 0x3FFF_FFFF,
            shift: 0,
            tag: 0xC000_0000,
        },
    }
}

// The shortest form of v, at the front of four bytes.
#[tactic(auto, using(crate::proofs::Overs::joined))]
fn formed(v: i32) -> u32
    requires { mag v < 2 ^ 29 }
    ensures { Formed v result }
{
    let u = v.cast_unsigned();
    let form = form_of(magnitude(v));
    form.tag | ((u & form.mask) << form.shift)
}

fn put_slot(out: &mut [u8], at: usize, v: i32, used: bool) -> usize
    requires { (mag v < 2 ^ 29) × (at + 4 ≤ length out.old) }
    ensures { Over (cond used (encode_operand v) []) at out.old result out.new }
{
    put_bits(out, at, formed(v));
    if used { at + 1 + more(v) } else { at }
}

fn middle_slot(words: &[i32], w: usize, out: &mut [u8], at: usize) -> usize
    requires { GoodMiddle words.now w × (first_wide (middle_there words.now w) ≡ none) × (at + length (bytes_of (middle_there words.now w)) + 4 ≤ length out.old) }
    ensures { Over (bytes_of (middle_there words.now w)) at out.old result out.new }
{
    let used = used_middle(byte_there(words, w));
    put_slot(out, at, words[w + 1], 0 < used)
}

fn register_slots(words: &[i32], w: usize, out: &mut [u8], at: usize) -> usize
    requires { GoodOperand words.now w × (first_wide (registers_there words.now w) ≡ none) × (at + length (bytes_of (registers_there words.now w)) + 4 ≤ length out.old) }
    ensures { Over (bytes_of (registers_there words.now w)) at out.old result out.new }
{
    let used = used_registers(byte_there(words, w));
    let next = put_slot(out, at, words[w + 1], 0 < used);
    put_slot(out, next, words[w + 2], 1 < used)
}

pub fn put_over(words: &[i32], w: usize, out: &mut [u8], at: usize) -> usize
    requires { GoodWords words.now w × (first_wide (parts_there words.now w) ≡ none) × (at + length (bytes_of (parts_there words.now w)) + 4 ≤ length out.old) }
    ensures { Over (bytes_of (parts_there words.now w)) at out.old result out.new }
{
    let a = put_byte(out, at, byte_there(words, w));
    let b = put_byte(out, a, addressing_there(words, w));
    let c = middle_slot(words, w + 4, out, b);
    let d = register_slots(words, w + 1, out, c);
    register_slots(words, w + 6, out, d)
}
