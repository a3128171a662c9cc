// An instruction's line by its nine words, which the check has found good: no record is built.
#![tactic(auto)]

pub mod bytes;
pub mod size;
pub mod slots;

ghost use Rattle.std.specs.Prelude.{◌≡◌, ◌<◌, length};
ghost use Rattle.format.specs.WellFormed.{word};
ghost use Rattle.table_pieces.specs.Bytes.{byte_of};

// A word that is known to be an opcode or a mode.
#[tactic(auto, using(crate::proofs::Sizes::byte_is, crate::proofs::Sizes::number_is))]
fn byte_there(words: &[i32], w: usize) -> u8
    requires { (w < length words.now) × (byte_of (word words.now w) < 255) }
    ensures { result ≡ byte_of (word words.now w) }
{
    words[w] as u8
}
