// A line of a list: it lends something to the lines after it, or is a case.
use crate::memory::Lent;
use crate::operations::{Event, Verdict, run_event, run_load, run_write};
use crate::text::{argument, field, token};

// Nothing, where it is neither a case nor what is lent.
fn run_text(text: &[u8], lent: &mut Lent) -> Option<Verdict> {
    if !token(field(text, 4), 0).is_empty() {
        return None;
    }
    match token(text, 0) {
        b"file" => lent.set_file(argument(text))?,
        b"words" => lent.set_words(argument(text))?,
        b"module" => lent.set_module(argument(text))?,
        b"state" => lent.set_state(argument(text))?,
        b"load" => return run_load(text, lent),
        b"write" => return run_write(text, lent),
        b"entry" => return run_event(Event::Entry, text, lent),
        b"export" => return run_event(Event::Export, text, lent),
        b"next" => return run_event(Event::Next, text, lent),
        b"raise" => return run_event(Event::Raise, text, lent),
        _ => return None,
    }
    Some(Verdict::NoCase)
}

// Of what stands on the line before a #, where that is something.
pub fn run_line(text: &[u8], lent: &mut Lent) -> Verdict {
    run_text(text, lent).unwrap_or(Verdict::Strange)
}
