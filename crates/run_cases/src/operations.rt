// A case: an operation over what the list lends, and whether its answer and the memory that it leaves are as the line says.
use crate::memory::{LENT, LENT_BYTE, Lent, WORDS, copy};
use crate::text::{BYTES, argument, bytes_into, count_of, field, number_of, token, words_into};
use abi::{dis_entry, dis_export, dis_load, dis_next, dis_raise, dis_write};
use abi_numbers::{MODULE_WIDTH, STATE_WIDTH};
use std::fmt;

// What a line comes to.
#[derive(Clone, Copy)]
pub enum Verdict {
    // It lends something, or is empty.
    NoCase,
    Done,
    Refused,
    OtherAnswer([i64; 4]),
    OtherWords,
    OtherModule,
    OtherOutput,
    OtherState,
    // Neither a case nor what is lent.
    Strange,
}

impl fmt::Display for Verdict {
    fn fmt<W: fmt::Write>(&self, f: &mut fmt::Formatter<W>) -> fmt::Result {
        match self {
            Verdict::NoCase => f.write_str("no case"),
            Verdict::Done => f.write_str("done as listed"),
            Verdict::Refused => f.write_str("refused as listed"),
            Verdict::OtherAnswer([number, section, place, detail]) => {
                write!(f, "the answer is {number} {section} {place} {detail}")
            }
            Verdict::OtherWords => f.write_str(
                "the words differ, or those past them are not as lent",
            ),
            Verdict::OtherModule => f.write_str("the module's numbers differ, or are not as lent"),
            Verdict::OtherOutput => f.write_str(
                "the output differs, or what is past it is not as lent",
            ),
            Verdict::OtherState => f.write_str("the state differs, or is not as lent"),
            Verdict::Strange => f.write_str("neither a case nor what is lent"),
        }
    }
}

// ---- the answer

fn same_answer(answer: &[i64; 4], field: &[u8]) -> bool {
    for k in 0..4 {
        if number_of(token(field, k)) != Some(answer[k]) {
            return false;
        }
    }
    token(field, 4).is_empty()
}

fn done(answer: &[i64; 4]) -> Verdict {
    if answer[0] == 0 {
        Verdict::Done
    } else {
        Verdict::Refused
    }
}

// Whether as many numbers are listed as were written: none with a refusal.
fn all_listed(answer: &[i64; 4], listed: usize, written: i64) -> bool {
    if answer[0] == 0 {
        written.unsigned_abs() == listed as u64
    } else {
        listed == 0
    }
}

// ---- memory

// A run of numbers holds those that are listed and then what was lent; with a refusal all is as lent.
fn numbers_alike(
    run: &[i32],
    lent: &[i32],
    listed: &[u8],
    answer: &[i64; 4],
    written: i64,
) -> bool {
    let mut expected = [LENT; WORDS];
    copy(&mut expected, lent);
    let Some(n) = words_into(&mut expected, listed) else {
        return false;
    };
    all_listed(answer, n, written) && expected.starts_with(run)
}

fn bytes_alike(run: &[u8], listed: &[u8], answer: &[i64; 4]) -> bool {
    let mut expected = [LENT_BYTE; BYTES];
    let Some(n) = bytes_into(&mut expected, listed) else {
        return false;
    };
    all_listed(answer, n, answer[1]) && expected.starts_with(run)
}

// ---- `load WORDS | ANSWER | MODULE | TABLES`

fn judge_load(line: &[u8], words: &[i32], module: &[i32], answer: &[i64; 4]) -> Verdict {
    let lent = [LENT; WORDS];
    if !same_answer(answer, field(line, 1)) {
        return Verdict::OtherAnswer(*answer);
    }
    if !numbers_alike(module, &lent, field(line, 2), answer, MODULE_WIDTH as i64) {
        return Verdict::OtherModule;
    }
    if !numbers_alike(words, &lent, field(line, 3), answer, answer[2]) {
        return Verdict::OtherWords;
    }
    done(answer)
}

// What it loads is lent to the cases after it.
pub fn run_load(line: &[u8], lent: &mut Lent) -> Option<Verdict> {
    let asked = count_of(token(field(line, 0), 1))?;
    let mut run = [LENT; WORDS];
    let tables = &mut run[..asked.min(WORDS)];
    let mut numbers = [LENT; MODULE_WIDTH];
    let mut answer = [-1i64; 4];
    dis_load(lent.file(), tables, &mut numbers, &mut answer);
    if answer[0] == 0 {
        lent.set_loaded(tables, numbers);
    }
    Some(judge_load(line, tables, &numbers, &answer))
}

// ---- `write ROOM | CHANGES | ANSWER | BYTES`

pub fn run_write(line: &[u8], lent: &Lent) -> Option<Verdict> {
    let changed = lent.changed(field(line, 1))?;
    let room = count_of(token(field(line, 0), 1))?;
    let mut run = [LENT_BYTE; BYTES];
    let out = &mut run[..room.min(BYTES)];
    let mut answer = [-1i64; 4];
    dis_write(
        &changed.module,
        changed.file(),
        changed.words(),
        out,
        &mut answer,
    );
    Some(judge_write(line, out, &answer))
}

fn judge_write(line: &[u8], out: &[u8], answer: &[i64; 4]) -> Verdict {
    if !same_answer(answer, field(line, 2)) {
        return Verdict::OtherAnswer(*answer);
    }
    if !bytes_alike(out, field(line, 3), answer) {
        return Verdict::OtherOutput;
    }
    done(answer)
}

// ---- `entry | CHANGES | ANSWER | STATE`, `export NUMBER | ..`, `next | ..`, `raise NAME | ..`

#[derive(Clone, Copy)]
pub enum Event {
    Entry,
    Export,
    Next,
    Raise,
}

// The event is met in the state.
fn meet(
    event: Event,
    with: &[u8],
    lent: &Lent,
    state: &mut [i32],
    answer: &mut [i64],
) -> Option<()> {
    let module = &lent.module;
    let file = lent.file();
    let words = lent.words();
    match event {
        Event::Entry => {
            dis_entry(module, file, words, state, answer);
        }
        Event::Export => {
            let number = u32::try_from(count_of(token(with, 0))?).ok()?;
            dis_export(module, file, words, number, state, answer);
        }
        Event::Next => {
            dis_next(module, file, words, state, answer);
        }
        Event::Raise => {
            let mut name = [0u8; BYTES];
            let len = bytes_into(&mut name, with)?;
            dis_raise(module, file, words, &name[..len.min(BYTES)], state, answer);
        }
    }
    Some(())
}

pub fn run_event(event: Event, line: &[u8], lent: &Lent) -> Option<Verdict> {
    let changed = lent.changed(field(line, 1))?;
    let mut state = lent.state;
    let mut answer = [-1i64; 4];
    meet(
        event,
        argument(field(line, 0)),
        &changed,
        &mut state,
        &mut answer,
    )?;
    Some(judge_event(line, &lent.state, &state, &answer))
}

fn judge_event(line: &[u8], lent: &[i32], state: &[i32], answer: &[i64; 4]) -> Verdict {
    if !same_answer(answer, field(line, 2)) {
        return Verdict::OtherAnswer(*answer);
    }
    if !numbers_alike(state, lent, field(line, 3), answer, STATE_WIDTH as i64) {
        return Verdict::OtherState;
    }
    done(answer)
}
