// Says of each file that its arguments name whether it is a good module, and if not, why not.
#![tactic(auto)]

mod report;
mod shown;

ghost use Rattle.std.specs.Prelude.{◌≡◌, length};

use crate::report::{good, refused};
use crate::shown::Shown;
use files::{Unread, is_there, read_file};
use load::load;
use std::io;
use std::rt::{Env, Files};

// How many table words there are: nine for each two bytes of a file, since no record takes more.
const MOST_WORDS: usize = 1_179_648;

#[derive(Clone, Copy)]
enum Verdict {
    Good,
    Refused,
    Unread,
}

// How many files got each verdict, and how many words the next module is lent.
#[derive(Clone, Copy)]
struct Tally {
    good: usize,
    refused: usize,
    unread: usize,
    lent: usize,
}

impl Tally {
    fn with(self, verdict: Verdict) -> Tally {
        let mut next = self;
        match verdict {
            Verdict::Good => next.good = self.good.saturating_add(1),
            Verdict::Refused => next.refused = self.refused.saturating_add(1),
            Verdict::Unread => next.unread = self.unread.saturating_add(1),
        }
        next
    }
}

// One byte more than a file may have, so that a longer one is told apart.
fn file_room() -> [u8; 262145]
    ensures { 262145 ≡ length result }
{
    [0; 262145]
}

fn words_room() -> [i32; 1179648]
    ensures { 1179648 ≡ length result }
{
    [0; 1179648]
}

fn judged<P: Print>(rt: &P, file: &[u8], lent: usize) -> io::Result<Verdict> {
    let mut run = words_room();
    let words = &mut run[..lent.min(MOST_WORDS)];
    match load(file, words) {
        Err(why) => {
            if file.is_empty() {
                print!(rt; "empty, ")?;
            }
            refused(rt, why)?;
            Ok(Verdict::Refused)
        }
        Ok(loaded) => {
            good(rt, loaded, file, words)?;
            Ok(Verdict::Good)
        }
    }
}

fn reported<R: Files + Print>(rt: &R, path: &[u8], lent: usize) -> io::Result<Verdict> {
    print!(rt; "{}: ", Shown(path))?;
    let mut room = file_room();
    match read_file(rt, path, &mut room) {
        Err(unread) => {
            println!(rt; "not read: {unread}")?;
            Ok(Verdict::Unread)
        }
        Ok(262145) => {
            println!(rt; "not read: it is longer than the 262144 bytes that there is room for")?;
            Ok(Verdict::Unread)
        }
        Ok(len) => judged(rt, &room[..len], lent),
    }
}

// How many words the modules after it are lent, of an argument words=N; every other argument is a path.
fn lent_by(arg: &[u8]) -> Option<usize> {
    let digits = arg.strip_prefix(b"words=".as_slice())?;
    if digits.is_empty() {
        return None;
    }
    let mut lent: usize = 0;
    for digit in digits {
        if !digit.is_ascii_digit() {
            return None;
        }
        lent = (lent * 10 + usize::from(*digit - b'0')).min(MOST_WORDS);
    }
    Some(lent)
}

// Of an argument that is there.
fn with_argument<R: Env + Files + Print>(rt: &R, t: Tally, i: usize) -> io::Result<Tally> {
    let mut arg = [0; 4096];
    let Ok(len) = rt.arg(i, &mut arg) else {
        println!(rt; "argument {i}: not read: {}", Unread::LongName)?;
        return Ok(t.with(Verdict::Unread));
    };
    match lent_by(&arg[..len]) {
        Some(lent) => Ok(Tally { lent, ..t }),
        None => Ok(t.with(reported(rt, &arg[..len], t.lent)?)),
    }
}

fn report_all<R: Env + Files + Print>(rt: &R) -> io::Result<()> {
    let mut tally = Tally {
        good: 0,
        refused: 0,
        unread: 0,
        lent: MOST_WORDS,
    };
    for i in 1..usize::MAX {
        if !is_there(rt.arg(i, &mut [])) {
            break;
        }
        tally = with_argument(rt, tally, i)?;
    }
    println!(rt;
        "{} good, {} refused, {} not read",
        tally.good, tally.refused, tally.unread
    )
}

fn main(rt: HostRuntime) -> io::Result<()> {
    if !is_there(rt.arg(1, &mut [])) {
        eprintln!(rt;
            "desk PATH..: says of each file whether it is a good module, and if not, why not"
        )?;
        return eprintln!(rt;
            "words=N among the paths: the modules after it are lent N table words"
        );
    }
    match report_all(&rt) {
        Ok(()) => Ok(()),
        Err(_) => eprintln!(rt; "desk: not all of the report could be written"),
    }
}
