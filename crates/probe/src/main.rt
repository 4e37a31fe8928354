// The program `probe`: obeys a probe from standard input, or each file that is named as one of its own, over the store's calls.
#![tactic(auto)]

mod run;

use files::{NAME, arg_count, finished, open_argument, reported};
use handles::Source;
use pages::Page;
use run::play;
use script::Script;
use std::fs::File;
use std::rt::{Env, Files, Stderr};

fn play_all(to: Stderr, from: Source, page: &mut Page, name: &[u8]) -> bool {
    let mut script = Script::new(from);
    let ok = match play(&mut script, page) {
        Ok(()) => true,
        Err(ending) => reported(to, ending, b"probe: ", name),
    };
    finished(to, page, ok, b"probe: ")
}

fn play_file<R: Env + Files<File = File>>(rt: &R, to: Stderr, i: usize, page: &mut Page) -> bool {
    let mut path = [0u8; NAME];
    match open_argument(rt, to, i, b"probe: ", b"the name of a probe", &mut path) {
        Some(opened) => play_all(to, Source::Named(opened.file), page, &path[..opened.name]),
        None => false,
    }
}

fn play_files<R: Env + Files<File = File>>(rt: &R, to: Stderr, count: usize, page: &mut Page) {
    for i in 1..count {
        if !play_file(rt, to, i, page) {
            return;
        }
    }
}

fn main(rt: HostRuntime) {
    let to = rt.stderr();
    let mut page = Page::new(rt.stdout());
    let count = arg_count(&rt);
    if count < 2 {
        let _ = play_all(
            to,
            Source::Standard(rt.stdin()),
            &mut page,
            b"standard input",
        );
        return;
    }
    play_files(&rt, to, count, &mut page);
}
