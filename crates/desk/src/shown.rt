// Raw bytes as they print.
use std::fmt;

// A byte as it prints, or its value: names are raw bytes, and a terminal obeys some of them. So do a quote and a backslash
// have their values here.
#[derive(Clone, Copy)]
pub struct Shown<'a>(pub &'a [u8]);

impl<'a> fmt::Display for Shown<'a> {
    fn fmt<W: fmt::Write>(&self, f: &mut fmt::Formatter<W>) -> fmt::Result {
        for b in self.0 {
            match *b {
                b' '..=b'!' | b'#'..=b'[' | b']'..=b'~' => f.write_char(char::from(*b))?,
                _ => write!(f, "\\x{:02x}", *b)?,
            }
        }
        Ok(())
    }
}
