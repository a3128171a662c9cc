// The table words of each record, stored at a place of the lent run.
#![tactic(auto)]

ghost use Rattle.std.specs.Prelude.{◌≡◌, List, ℤ, ◌+◌, ◌≤◌, length};
ghost use Rattle.format.specs.Put.{put};
ghost use Rattle.format.specs.Words as Spec;

use format::instruction::Instruction;
use format::module::{DataItem, ExceptionCase, ExportEntry, Handler, ImportEntry};
use format::put::put_all;
use format::types::TypeDescriptor;

// A record that has table words; a handler has its own here, and its cases have theirs.
pub trait Store {
    ghost words_of: { Self → List ℤ };

    // The place after them.
    fn store(self, words: &mut [i32], w: usize) -> usize
        requires { w + length (words_of self) ≤ length words.old }
        ensures place { result ≡ w + length (words_of self) }
        ensures stored { words.new ≡ put w (words_of self) words.old };
}

impl Store for TypeDescriptor {
    ghost words_of = { Spec.type_words };

    fn store(self, words: &mut [i32], w: usize) -> usize {
        let map = self.map;
        put_all(
            words,
            w,
            [self.id, self.size, map.start, map.len, self.pointers],
        )
    }
}

impl Store for ExportEntry {
    ghost words_of = { Spec.export_words };

    fn store(self, words: &mut [i32], w: usize) -> usize {
        let name = self.name;
        put_all(
            words,
            w,
            [self.pc, self.frame, self.signature, name.start, name.len],
        )
    }
}

impl Store for DataItem {
    ghost words_of = { Spec.item_words };

    fn store(self, words: &mut [i32], w: usize) -> usize {
        let kind = u8::from(self.kind);
        let value = self.value;
        put_all(
            words,
            w,
            [kind.into(), self.offset, self.count, value.start, value.len],
        )
    }
}

impl Store for ImportEntry {
    ghost words_of = { Spec.function_words };

    fn store(self, words: &mut [i32], w: usize) -> usize {
        let name = self.name;
        put_all(words, w, [self.signature, name.start, name.len])
    }
}

impl Store for Handler {
    ghost words_of = { Spec.handler_words_of };

    fn store(self, words: &mut [i32], w: usize) -> usize {
        put_all(
            words,
            w,
            [
                self.offset,
                self.begin,
                self.end,
                self.descriptor,
                self.cases,
            ],
        )
    }
}

impl Store for ExceptionCase {
    ghost words_of = { Spec.case_words };

    fn store(self, words: &mut [i32], w: usize) -> usize {
        let name = self.name;
        put_all(words, w, [name.start, name.len, self.pc])
    }
}

impl Store for Instruction {
    ghost words_of = { Spec.instruction_words };

    fn store(self, words: &mut [i32], w: usize) -> usize {
        let source = self.source;
        let middle = self.middle;
        let destination = self.destination;
        put_all(
            words,
            w,
            [
                self.opcode.into(),
                u8::from(source.mode).into(),
                source.register1,
                source.register2,
                u8::from(middle.mode).into(),
                middle.register1,
                u8::from(destination.mode).into(),
                destination.register1,
                destination.register2,
            ],
        )
    }
}
