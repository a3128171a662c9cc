// Runs the lists of cases that its arguments name: each case's operation, through the boundary that C has, and whether its answer and the memory that it leaves
// are as the line says. README.md beside src/ has the form of a list.
#![tactic(auto)]

mod lines;
mod memory;
mod operations;
mod text;

ghost use Rattle.std.specs.Prelude.{◌≡◌, length};

use crate::lines::run_line;
use crate::memory::Lent;
use crate::operations::Verdict;
use crate::text::{before, past_spaces};
use files::{is_there, read_file};
use std::io;
use std::rt::{Env, Files};

// How many cases came out as listed, done or refused, and how many lines did not.
#[derive(Clone, Copy)]
struct Tally {
    done: usize,
    refused: usize,
    differ: usize,
}

impl Tally {
    fn with(self, verdict: Verdict) -> Tally {
        let mut next = self;
        match verdict {
            Verdict::NoCase => {}
            Verdict::Done => next.done = self.done.saturating_add(1),
            Verdict::Refused => next.refused = self.refused.saturating_add(1),
            _ => next.differ = self.differ.saturating_add(1),
        }
        next
    }
}

// Each line is handed what the lines before it lent; one with nothing before a # is passed over. One that came out otherwise
// than listed is printed.
fn run_lines<P: Print>(rt: &P, text: &[u8]) -> io::Result<Tally> {
    let mut lent = Lent::new();
    let mut tally = Tally {
        done: 0,
        refused: 0,
        differ: 0,
    };
    for (k, line) in text.split(|b| *b == b'\n').enumerate() {
        let content = before(line, b'#');
        if past_spaces(content).is_empty() {
            continue;
        }
        let verdict = run_line(content, &mut lent);
        let next = tally.with(verdict);
        if tally.differ < next.differ {
            println!(rt; "  line {}: {verdict}", k.saturating_add(1))?;
        }
        tally = next;
    }
    Ok(tally)
}

// One byte more than a list may have, so that a longer one is told apart.
fn list_room() -> [u8; 1048577]
    ensures { 1048577 ≡ length result }
{
    [0; 1048577]
}

fn run_list<R: Files + Print>(rt: &R, name: &[u8]) -> io::Result<()> {
    rt.write_all(name)?;
    println!(rt)?;
    let mut room = list_room();
    match read_file(rt, name, &mut room) {
        Err(unread) => println!(rt; "  not read, error {}", unread.errno().unsigned_abs()),
        Ok(1048577) => println!(rt; "  not read: it is longer than there is room for"),
        Ok(len) => {
            let tally = run_lines(rt, &room[..len])?;
            println!(rt;
                "  {} done and {} refused as listed, {} differ",
                tally.done, tally.refused, tally.differ
            )
        }
    }
}

// Of an argument that is there: one that is too long names no file.
fn with_argument<R: Env + Files + Print>(rt: &R, i: usize) -> io::Result<()> {
    let mut name = [0; 4096];
    let len = rt.arg(i, &mut name).unwrap_or(0);
    run_list(rt, &name[..len])
}

fn main(rt: HostRuntime) -> io::Result<()> {
    for i in 1..usize::MAX {
        if !is_there(rt.arg(i, &mut [])) {
            break;
        }
        with_argument(&rt, i)?;
    }
    Ok(())
}
