// What the two programs share: the file that an argument names, the end of the output, and what is said where either fails.
#![tactic(auto)]

ghost use Rattle.std.specs.Prelude.{◌≤◌, IfSome};
ghost use Rattle.files.specs.Sizes.{IsPrefixLen};

use handles::number_of;
use pages::Page;
use script::Ending;
use std::env::FillError;
use std::fmt::Write;
use std::fs::File;
use std::io::Print;
use std::rt::{Env, Files, Stderr};
use std::{fmt, io};

// Bytes of the longest name.
pub const NAME: usize = 4096;

// Bytes of the longest text that the system has for an error's number.
const TEXT: usize = 128;

// The system's numbers of what may be wrong with an argument: there is none, it is too long, and it is no text.
const INVALID: i32 = 22;

const TOO_LONG: i32 = 36;

const NO_TEXT: i32 = 84;

// What cannot be written.
const OUTPUT: &[u8] = b"standard output";

// A file that is open, and the length of its name.
#[derive(Drop)]
pub struct Opened {
    pub file: File,
    pub name: usize,
}

// A text in a lent place, as far as it fits.
#[derive(Drop)]
struct Text {
    bytes: [u8; TEXT],
    used: usize,
}

impl Write for Text {
    fn write_str(&mut self, s: &str) -> fmt::Result {
        for b in s.as_bytes() {
            if TEXT <= self.used {
                return Err(fmt::Error);
            }
            self.bytes[self.used] = *b;
            self.used += 1;
        }
        Ok(())
    }
}

// How much of an error's text stands before its number, which is in parentheses behind a space.
fn before_number(text: &[u8]) -> usize
    ensures { IsPrefixLen result text.now }
{
    let mut n = text.len();
    for (i, b) in text.iter().enumerate() {
        if *b == b'(' && 0 < i {
            n = i - 1;
        }
    }
    n
}

// The system's text for an error's number, at the start of `text`, and its length.
fn reason(error: i32, text: &mut [u8; TEXT]) -> usize
    ensures { IsPrefixLen result text.new }
{
    let mut all = Text {
        bytes: [0; TEXT],
        used: 0,
    };
    let e = io::Error::from_raw_os_error(error);
    let _ = write!(all, "{e}");
    *text = all.bytes;
    let used = all.used;
    if used <= TEXT {
        return before_number(&text[..used]);
    }
    0
}

// Says which program failed, what it failed at, and why.
pub fn fail(to: Stderr, program: &[u8], what: &[u8], error: i32) {
    let mut text = [0u8; TEXT];
    let n = reason(error, &mut text);
    say(to, program);
    say(to, what);
    say(to, b": ");
    say(to, &text[..n]);
    say(to, b"\n");
}

// Nothing can be said of an error in standard error.
pub fn say(to: Stderr, text: &[u8]) {
    let _ = Print::write_all(&to, text);
}

// How many arguments there are, with the program's own name, which is the first.
pub fn arg_count(rt: &impl Env) -> usize {
    let mut none = [0u8; 0];
    for i in 0..usize::MAX {
        if let Err(FillError::NotPresent) = rt.arg(i, &mut none) {
            return i;
        }
    }
    usize::MAX
}

fn number_for(e: FillError) -> i32 {
    match e {
        FillError::NotPresent => INVALID,
        FillError::TooLong => TOO_LONG,
    }
}

// Opens a file by its name, which has to be text. None: the system's number of the error.
fn open<R: Files<File = File>>(rt: &R, name: &[u8]) -> Result<File, i32> {
    match str::from_utf8(name) {
        Ok(path) => File::open(rt, path).map_err(number_of),
        Err(_) => Err(NO_TEXT),
    }
}

// Opens the file that argument i names, and says so where that fails.
pub fn open_argument<R: Env + Files<File = File>>(
    rt: &R,
    to: Stderr,
    i: usize,
    program: &[u8],
    what: &[u8],
    path: &mut [u8],
) -> Option<Opened>
    ensures { IfSome result (λ opened. IsPrefixLen opened.name path.new) }
{
    let name = match rt.arg(i, path) {
        Ok(n) => n,
        Err(e) => {
            fail(to, program, what, number_for(e));
            return None;
        }
    };
    match open(rt, &path[..name]) {
        Ok(file) => Some(Opened { file, name }),
        Err(error) => {
            fail(to, program, &path[..name], error);
            None
        }
    }
}

// Says why a file's play ended before its end, where it could not be read or its output not written, and whether neither was so.
// Stays: whether all went well is a plain yes or no, here and in what calls it: what failed is said where it fails.
pub fn reported(to: Stderr, ending: Ending, program: &[u8], name: &[u8]) -> bool {
    match ending {
        Ending::Unreadable(error) => {
            fail(to, program, name, error);
            false
        }
        Ending::Unwritten(error) => {
            fail(to, program, OUTPUT, error);
            false
        }
        Ending::End | Ending::Unkept => true,
    }
}

// Writes out what is on the page. Answers whether that went well, as all before it did.
pub fn finished(to: Stderr, page: &mut Page, ok: bool, program: &[u8]) -> bool {
    if let Err(ending) = page.flush() {
        return ok && reported(to, ending, program, OUTPUT);
    }
    ok
}
