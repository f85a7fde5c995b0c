// The files of the two programs: a settings file, and a file of lines that is read in pieces. All that is written comes
// from `stream`. What cannot be opened, read or written is told on standard error, and nothing more is written.
#![tactic(auto)]

ghost use Rattle.std.specs.Io.{ReadsAtMost};

use answer::judge::Lines;
use std::env::Env;
use std::fs::{File, Files};
use std::io::{Cursor, Print, Read, Write};
use std::{io, str};
use stream::run::{Run, Told};
use stream::start::begin;

// How many bytes are read at a time. A settings file's first so many decide its reading, and no path that can be opened has more.
const PIECE: usize = 4_096;

// What could not be opened, read or written, and why.
#[derive(Clone, Copy)]
enum Failure {
    Settings(io::Error),
    Lines(io::Error),
    Output(io::Error),
}

// The system's number for bytes that are no text. Only a path that is UTF-8 can be opened.
const ILLEGAL_BYTES: i32 = 84;

fn open<R: Files>(rt: &R, path: &[u8]) -> io::Result<R::File> {
    match str::from_utf8(path) {
        Ok(text) => File::open(rt, text),
        Err(_) => Err(io::Error::from_raw_os_error(ILLEGAL_BYTES)),
    }
}

// Reads until there is no room left, or a read answers no bytes, and says how many there are. A read that fails answers none, and
// so does the end of the file; the read after it tells them apart.
fn first_bytes<F: Read>(file: &mut F, text: &mut [u8]) -> io::Result<usize>
    ensures { ReadsAtMost result text.new }
{
    let mut n = 0;
    while n < text.len() {
        let got = file.read(&mut text[n..]).unwrap_or(0);
        if got == 0 {
            break;
        }
        n += got;
    }
    let mut after = [0u8; 16];
    file.read(&mut after)?;
    Ok(n)
}

// The first bytes of the settings file: 4,096 of them, which decide its reading. 87 lines that pass 14 and 15 have at most 1,054
// bytes (1,053 where 16 passes too), so of what follows them it matters only that it is there (17).
fn settings<R: Files>(rt: &R, path: &[u8], text: &mut [u8]) -> io::Result<usize>
    ensures { ReadsAtMost result text.new }
{
    let mut file = open(rt, path)?;
    first_bytes(&mut file, text)
}

// Starts the run from the settings file.
fn start<R: Files + Print>(rt: &R, kind: Lines, path: &[u8]) -> Result<Run, Failure> {
    let mut text = [0u8; PIECE];
    let n = settings(rt, path, &mut text).map_err(Failure::Settings)?;
    let mut out = [0u8; Run::ROOM];
    let Told { run, len } = begin(kind, &text[..n], &mut out).unwrap();
    rt.write_all(&out[..len]).map_err(Failure::Output)?;
    Ok(run)
}

// The pieces of a file, to its end or to the refusal that ends the run. Nothing says that a file ends, and no file outlives so
// many pieces. The output has room for what a piece can lead to, and is made once.
fn pieces<P: Print, F: Read>(rt: &P, file: &mut F, run: Run) -> Result<Run, Failure> {
    let mut piece = [0u8; PIECE];
    let mut out = [0u8; PIECE * Run::ROOM];
    let mut now = run;
    for _ in 0..u64::MAX {
        let n = file.read(&mut piece).map_err(Failure::Lines)?;
        if n == 0 {
            break;
        }
        let told = now.feed(&piece[..n], &mut out).unwrap();
        rt.write_all(&out[..told.len]).map_err(Failure::Output)?;
        now = told.run;
        if now.ended {
            break;
        }
    }
    Ok(now)
}

// The file of lines, from its first byte to its end.
fn lines<R: Files + Print>(rt: &R, path: &[u8], run: Run) -> Result<(), Failure> {
    let mut file = open(rt, path).map_err(Failure::Lines)?;
    let last = pieces(rt, &mut file, run)?;
    let mut out = [0u8; Run::ROOM];
    let told = last.finish(&mut out).unwrap();
    rt.write_all(&out[..told.len]).map_err(Failure::Output)
}

fn answer<R: Files + Print>(rt: &R, kind: Lines, path: &[u8], file: &[u8]) -> Result<(), Failure> {
    let run = start(rt, kind, path)?;
    if run.ended {
        return Ok(());
    }
    lines(rt, file, run)
}

// Writes a line: what failed, a colon, and the system's text for the error, which an error's own text has in front of its number.
fn tell<E: Print>(err: &E, what: &[u8], why: io::Error) -> io::Result<()> {
    let mut said = Cursor::new([0u8; 256]);
    write!(said, "{why}")?;
    let text = str::from_utf8(said.get_ref()).unwrap_or("");
    let reason = match text.split_once(" (os error ") {
        Some((reason, _)) => reason,
        None => text.trim_end_matches('\0'),
    };
    err.write_all(what)?;
    err.write_all(b": ")?;
    err.write_all(reason.as_bytes())?;
    err.write_all(b"\n")
}

// A whole program: its first argument names the settings file, its second the file of lines.
pub fn run(rt: &HostRuntime, kind: Lines, usage: &[u8]) {
    let err = rt.stderr();
    let mut path = [0u8; PIECE];
    let mut file = [0u8; PIECE];
    let (Ok(n), Ok(m)) = (rt.arg(1, &mut path), rt.arg(2, &mut file)) else {
        let _ = err.write_all(usage);
        return;
    };
    let _ = match answer(rt, kind, &path[..n], &file[..m]) {
        Ok(()) => Ok(()),
        Err(Failure::Settings(why)) => tell(&err, &path[..n], why),
        Err(Failure::Lines(why)) => tell(&err, &file[..m], why),
        Err(Failure::Output(why)) => tell(&err, b"standard output", why),
    };
}
