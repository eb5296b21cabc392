// Checks the listing of its one argument, a file's name, or of standard input where it has none, and writes the answer to standard output.
// What keeps it from checking or from writing it says on standard error.
#![tactic(auto)]

use printed::ROOM;
use std::env::{Env, FillError};
use std::fmt::InlineText;
use std::fs::File;
use std::io;
use std::io::{Error, ErrorKind, Read, Write};
use typed_check::LISTING;

// The longest path that the system takes, with the byte that ends it.
const PATH: usize = 4096;

// Room for a reason of the system's. A longer one is cut.
const REASON: usize = 256;

// The system's number for a name that is too long.
const NAME_TOO_LONG: i32 = 36;

// What could not be read or written, and why.
#[derive(Clone, Copy)]
struct Failure<'a> {
    what: &'a [u8],
    why: Error,
}

// The system's words alone, which an error is printed with the number of.
fn words_of(text: &str) -> &str {
    text.split_once(" (os error ")
        .map_or(text, |(words, _)| words)
}

impl Failure<'_> {
    fn say(&self, rt: &HostRuntime) -> io::Result<()> {
        let text: InlineText<REASON> = InlineText::of(self.why);
        let words = words_of(text.as_str());
        let mut stderr = rt.stderr();
        stderr.write_all(b"stagecheck: ")?;
        stderr.write_all(self.what)?;
        writeln!(stderr, ": {words}")
    }
}

// A call of its own: a run that checks nothing, and only says why, needs no stack for a listing.
#[inline(never)]
fn check_input<'a>(
    rt: &HostRuntime,
    input: &mut impl Read,
    name: &'a [u8],
) -> Result<(), Failure<'a>> {
    // So much is enough: the text is the same whatever follows (`enough` in crates/stagecheck_text/proofs/Laws.antt). An array, since
    // programs ask for no memory (docs/PORT.md).
    let mut listing = [0; LISTING];
    let read = reading::read_full(input, &mut listing);
    let length = read.map_err(|why| Failure { what: name, why })?;
    let mut text = [0; ROOM];
    let n = stagecheck_text::check_text(&listing[..length], &mut text);
    let written = rt.stdout().write_all(&text[..n]);
    written.map_err(|why| Failure {
        what: b"standard output",
        why,
    })
}

// A path is text here, so a name that is not UTF-8 cannot be opened.
fn open(rt: &HostRuntime, name: &[u8]) -> io::Result<File> {
    let path = str::from_utf8(name).map_err(|_| Error::new(
        ErrorKind::InvalidFilename,
        "File name is not UTF-8",
    ))?;
    File::open(rt, path)
}

// The file that the first argument names, or standard input where there is none. The name is put into `path`.
fn check<'a>(rt: &HostRuntime, path: &'a mut [u8]) -> Result<(), Failure<'a>> {
    let length = match rt.arg(1, path) {
        Ok(length) => length,
        Err(FillError::NotPresent) => {
            return check_input(rt, &mut rt.stdin(), b"standard input");
        }
        Err(FillError::TooLong) => {
            return Err(Failure {
                what: b"FILE",
                why: Error::from_raw_os_error(NAME_TOO_LONG),
            });
        }
    };
    let name = &path[..length];
    let mut file = open(rt, name).map_err(|why| Failure { what: name, why })?;
    check_input(rt, &mut file, name)
}

fn run(rt: &HostRuntime) -> io::Result<()> {
    let has_two = !matches!(rt.arg(2, &mut []), Err(FillError::NotPresent));
    if has_two {
        return rt.stderr().write_all(b"usage: stagecheck [FILE]\n");
    }
    let mut path = [0; PATH];
    check(rt, &mut path).or_else(|failure| failure.say(rt))
}

// The status is 0 whatever happens. An error that comes this far could not be said on standard error.
fn main(rt: HostRuntime) {
    let _ = run(&rt);
}
