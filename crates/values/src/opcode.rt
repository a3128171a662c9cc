// opcode.rs: which bytes are an opcode.
ghost use Rattle.std.specs.Prelude.{◌≡◌, leb};

// `transmute` becomes a range decision.
pub fn is_opcode(b: u8) -> bool
    ensures { result ≡ leb b 175 }
{
    match b {
        0..=175 => true,
        176..=255 => false,
    }
}
