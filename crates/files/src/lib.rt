// What a program is handed: its arguments, and a file's bytes, into a lent slice.
#![tactic(auto)]

ghost use Rattle.std.specs.Prelude.{◌≡◌, ◌<◌, ◌≤◌, IfOk, length, take};
ghost use Rattle.files.specs.Arguments.{is_there};
ghost use Rattle.files.specs.Errors.{errno_of};
ghost use Rattle.std.specs.Io.{ReadsAtMost};
ghost use Rattle.std.specs.Io.KnownBytes.{Consumes, IsAtEnd, Keeps};

use std::env::FillError;
use std::error::Error;
use std::io::{ErrorKind, Read};
use std::rt::Files;
use std::{fmt, fs, io, str};

// What errno never is: more came after the file's end.
pub const CHANGED: i32 = 0;

// ---- Linux's numbers

// There is no such file.
pub const ENOENT: i32 = 2;

const EIO: i32 = 5;

// It may not be read.
pub const EACCES: i32 = 13;

// It is a directory.
pub const EISDIR: i32 = 21;

const EINVAL: i32 = 22;

// Its name is too long.
pub const ENAMETOOLONG: i32 = 36;

// Its name is no UTF-8: std opens no such file.
pub const EILSEQ: i32 = 84;

// Why a file was not read.
#[derive(Clone, Copy, Debug, PartialEq, Eq)]
pub enum Unread {
    Missing,
    NotAllowed,
    Directory,
    LongName,
    // std opens no such file.
    NotUtf8,
    // More came after the file's end.
    Changed,
    // Another error, by Linux's number.
    Other(i32),
}

impl Unread {
    // Linux's number; of what is none of its errors, 0.
    pub fn errno(self) -> i32
        ensures { result ≡ errno_of self }
    {
        match self {
            Unread::Missing => ENOENT,
            Unread::NotAllowed => EACCES,
            Unread::Directory => EISDIR,
            Unread::LongName => ENAMETOOLONG,
            Unread::NotUtf8 => EILSEQ,
            Unread::Changed => CHANGED,
            Unread::Other(errno) => errno,
        }
    }
}

impl fmt::Display for Unread {
    fn fmt<W: fmt::Write>(&self, f: &mut fmt::Formatter<W>) -> fmt::Result {
        match self {
            Unread::Missing => f.write_str("there is no such file"),
            Unread::NotAllowed => f.write_str("it may not be read"),
            Unread::Directory => f.write_str("it is a directory"),
            Unread::LongName => f.write_str("its name is too long"),
            Unread::NotUtf8 => f.write_str("its name is not UTF-8"),
            Unread::Changed => f.write_str("it changed while it was read"),
            Unread::Other(errno) => write!(f, "error {errno}"),
        }
    }
}

impl Error for Unread {}

// What std finds by itself has no number of the system: a zero byte in a name, and nothing else that is known of here.
impl From<io::Error> for Unread {
    fn from(error: io::Error) -> Unread {
        match error.raw_os_error() {
            Some(ENOENT) => Unread::Missing,
            Some(EACCES) => Unread::NotAllowed,
            Some(EISDIR) => Unread::Directory,
            Some(ENAMETOOLONG) => Unread::LongName,
            Some(EILSEQ) => Unread::NotUtf8,
            Some(CHANGED) => Unread::Changed,
            Some(errno) => Unread::Other(errno),
            None if error.kind() == ErrorKind::InvalidInput => Unread::Other(EINVAL),
            None => Unread::Other(EIO),
        }
    }
}

// How many bytes came before the lent slice was full, or the file ended.
fn filled<F: Read>(file: &mut F, room: &mut [u8]) -> io::Result<usize>
    ensures bound { ReadsAtMost result room.new }
    ensures bytes { IfOk result (λ n. Consumes (F.remaining file.old) (F.remaining file.new) (take n room.new)) }
    ensures end { IfOk result (λ n. n < length room.new → IsAtEnd (F.remaining file.new)) }
{
    let mut len = 0;
    while len < room.len() {
        let got = file.read(&mut room[len..])?;
        if got == 0 {
            return Ok(len);
        }
        len += got;
    }
    Ok(len)
}

// A file that grows while it is read gives more bytes after its end.
fn at_end<F: Read>(file: &mut F, len: usize) -> Result<usize, Unread>
    ensures count { IfOk result (λ n. n ≡ len) }
    ensures bytes { IfOk result (λ _. Keeps (F.remaining file.old) (F.remaining file.new)) }
    ensures end { IfOk result (λ _. IsAtEnd (F.remaining file.new)) }
{
    let mut one = [0u8; 1];
    let got = file.read(&mut one)?;
    if got == 0 {
        Ok(len)
    } else {
        Err(Unread::Changed)
    }
}

// As much as the lent slice holds. Where it is full, there may be more to read.
fn read_from<F: Read>(file: &mut F, room: &mut [u8]) -> Result<usize, Unread>
    ensures bound { ReadsAtMost result room.new }
    ensures bytes { IfOk result (λ n. Consumes (F.remaining file.old) (F.remaining file.new) (take n room.new)) }
    ensures end { IfOk result (λ n. n < length room.new → IsAtEnd (F.remaining file.new)) }
{
    let len = filled(file, room)?;
    if len < room.len() {
        at_end(file, len)
    } else {
        Ok(len)
    }
}

// As much as the lent slice holds. Where it is full, the file may be longer.
pub fn read_file<R: Files>(rt: &R, path: &[u8], room: &mut [u8]) -> Result<usize, Unread>
    ensures { IfOk result (λ len. len ≤ length room.new) }
{
    let Ok(name) = str::from_utf8(path) else {
        return Err(Unread::NotUtf8);
    };
    let mut file = fs::open(rt, name)?;
    read_from(&mut file, room)
}

// Whether an argument is there, by what std answers where it is asked for: one that is longer than the room is there too.
pub fn is_there(answer: Result<usize, FillError>) -> bool
    ensures { result ≡ is_there answer }
{
    !matches!(answer, Err(FillError::NotPresent))
}
