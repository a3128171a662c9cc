// What a list lends to its cases, and what a case changes of it.
use crate::text::{
    BYTES, COLON, before, behind, bytes_into, count_of, number_in, token, word_of, words_into,
};
use abi_numbers::{MODULE_WIDTH, STATE_WIDTH};

// How many words tables may have, and how many things a case may change of what is lent.
pub const WORDS: usize = 128;

const CHANGES: usize = 16;

// What every word, number and byte is that a case lends to be written.
pub const LENT: i32 = 7;

pub const LENT_BYTE: u8 = 7;

// As many as both have.
pub fn copy(to: &mut [i32], from: &[i32]) {
    let n = to.len().min(from.len());
    to[..n].copy_from_slice(&from[..n]);
}

#[derive(Clone, Copy)]
pub struct Lent {
    bytes: [u8; BYTES],
    file_length: usize,
    tables: [i32; WORDS],
    words_length: usize,
    pub module: [i32; MODULE_WIDTH],
    pub state: [i32; STATE_WIDTH],
}

impl Lent {
    // An empty file and no words.
    pub fn new() -> Lent {
        Lent {
            bytes: [0; BYTES],
            file_length: 0,
            tables: [LENT; WORDS],
            words_length: 0,
            module: [LENT; MODULE_WIDTH],
            state: [0; STATE_WIDTH],
        }
    }

    pub fn file(&self) -> &[u8] {
        &self.bytes[..self.file_length.min(BYTES)]
    }

    pub fn words(&self) -> &[i32] {
        &self.tables[..self.words_length.min(WORDS)]
    }

    // ---- `file BYTES`, `words NUMBERS`, `module NUMBERS`, `state NUMBERS`

    pub fn set_file(&mut self, listed: &[u8]) -> Option<()> {
        self.file_length = bytes_into(&mut self.bytes, listed)?;
        Some(())
    }

    pub fn set_words(&mut self, listed: &[u8]) -> Option<()> {
        self.words_length = words_into(&mut self.tables, listed)?;
        Some(())
    }

    pub fn set_module(&mut self, listed: &[u8]) -> Option<()> {
        all_into(&mut self.module, listed)
    }

    pub fn set_state(&mut self, listed: &[u8]) -> Option<()> {
        all_into(&mut self.state, listed)
    }

    // What a case loaded.
    pub fn set_loaded(&mut self, words: &[i32], module: [i32; MODULE_WIDTH]) {
        copy(&mut self.tables, words);
        self.words_length = words.len();
        self.module = module;
    }

    // ---- changes: `76:0` a word, `flags:0` a number of the module, `lent:82` how many words are lent

    // The module's numbers have dis.h's names and order.
    fn change(&mut self, what: &[u8], value: &[u8]) -> Option<()> {
        if what == b"lent".as_slice() {
            self.words_length = count_of(value)?;
            return Some(());
        }
        let to = word_of(value)?;
        match count_of(what) {
            Some(at) => {
                *self.tables.get_mut(at)? = to;
            }
            None => {
                let number = number_in(
                    b"magic signature_start signature_length flags stack_extent code_size data_size type_size export_size entry_pc entry_type name_start name_length items imports handlers",
                    what,
                )?;
                *self.module.get_mut(number)? = to;
            }
        }
        Some(())
    }

    // With all changes of the field made.
    pub fn changed(mut self, field: &[u8]) -> Option<Lent> {
        for k in 0..CHANGES {
            let asked = token(field, k);
            if asked.is_empty() {
                return Some(self);
            }
            self.change(before(asked, COLON), behind(asked, COLON))?;
        }
        None
    }
}

// As many as the run has.
fn all_into(run: &mut [i32], listed: &[u8]) -> Option<()> {
    let n = words_into(run, listed)?;
    (n == run.len()).then_some(())
}
