// The program `house` (H1 to H20): plays the script on standard input, or each file that is named as a house of its own.
#![tactic(auto)]

mod run;

use files::{NAME, arg_count, fail, finished, open_argument, reported, say};
use handles::Source;
use pages::Page;
use run::play;
use script::{Ending, Script};
use spool::Spare;
use std::fs::File;
use std::random::RandomSource;
use std::rt::{Env, Files, Stderr};

// The number under which the system has standard error.
const STANDARD_ERROR: i32 = 2;

// Says that what is under way does not fit into memory, nor into the temporary file, where there is one.
fn unkept(to: Stderr, spare: &Spare) {
    if !spare.is_open() {
        say(
            to,
            b"house: messages and records do not fit into memory, and no temporary file can be made in /tmp or /var/tmp\n",
        );
        return;
    }
    fail(
        to,
        b"house: ",
        b"a temporary file, for messages and records that do not fit into memory",
        spare.error(),
    );
}

// Says why a script ended before its end, and whether all went well.
fn explained(to: Stderr, ending: Ending, spare: &Spare, name: &[u8]) -> bool {
    if let Ending::Unkept = ending {
        unkept(to, spare);
        return false;
    }
    reported(to, ending, b"house: ", name)
}

// Plays a script, and answers whether all went well. What it printed before a failure is written out too.
fn play_all(to: Stderr, from: Source, spare: &mut Spare, page: &mut Page, name: &[u8]) -> bool {
    let mut script = Script::new(from);
    let ok = match play(&mut script, spare, page) {
        Ok(()) => true,
        Err(ending) => explained(to, ending, spare, name),
    };
    finished(to, page, ok, b"house: ")
}

fn play_file<R: Env + Files<File = File>>(
    rt: &R,
    to: Stderr,
    i: usize,
    spare: &mut Spare,
    page: &mut Page,
) -> bool {
    let mut path = [0u8; NAME];
    match open_argument(rt, to, i, b"house: ", b"the name of a script", &mut path) {
        Some(opened) => play_all(
            to,
            Source::Named(opened.file),
            spare,
            page,
            &path[..opened.name],
        ),
        None => false,
    }
}

fn play_files<R: Env + Files<File = File>>(
    rt: &R,
    to: Stderr,
    count: usize,
    spare: &mut Spare,
    page: &mut Page,
) {
    for i in 1..count {
        if !play_file(rt, to, i, spare, page) {
            return;
        }
    }
}

// The system opens a file under the lowest free number. If standard error is closed, the temporary file would become number 2; it is
// opened again, so that no error message is written into it, and the first is kept open.
fn open_spare<R: Files<File = File> + RandomSource>(rt: &R) -> (Spare, Option<Spare>) {
    let spare = spool::open(rt);
    if spare.descriptor() == Some(STANDARD_ERROR) {
        return (spool::open(rt), Some(spare));
    }
    (spare, None)
}

fn main(rt: HostRuntime) {
    let to = rt.stderr();
    let (mut spare, _held) = open_spare(&rt);
    if spare.descriptor().is_some_and(|n| n < STANDARD_ERROR) {
        say(to, b"house: standard input or output is closed\n");
        return;
    }
    let mut page = Page::new(rt.stdout());
    let count = arg_count(&rt);
    if count < 2 {
        let _ = play_all(
            to,
            Source::Standard(rt.stdin()),
            &mut spare,
            &mut page,
            b"standard input",
        );
        return;
    }
    play_files(&rt, to, count, &mut spare, &mut page);
}
