// The program `timing STEP COUNT`: plays saves, then makes the call of a step of the next one again and again, so that its time can
// be taken from outside. It prints how many words the calls wrote and how many were refused. A third argument is how many saves come
// before.
#![tactic(auto)]

mod again;
mod worst;

ghost use Rattle.std.specs.Prelude.{◌≤◌};

use again::{Tally, time_step};
use kinds::sizes::{COPY, OUTGOING, QUEUES};
use lines::{Place, WORDS};
use rounds::play::{BASES, GATHERINGS, HISTORIES, LIVES, Store, Words, played};
use rounds::step::{COMMIT, LAST_STEP, LAST_TIMED, WORST};
use std::env::FillError;
use std::rt::Env;
use worst::with_worst;

// Enough saves to fill the histories.
const SAVES: u64 = 40;

const MOST_SAVES: u64 = 1000000;

// Bytes of the longest argument.
const NAME: usize = 4096;

// What the first argument has to be.
const STEP_ASKED: &str = "the first argument has to be the number of a step, 0 to 31";

// A scan whose first word, which would be a verb, has ended: the next is a number.
fn behind_verb() -> Place {
    Place {
        ended: 1,
        begun: 0,
        word: 0,
    }
}

fn number_in(text: &[u8]) -> Option<u64> {
    let mut words = [0u64; WORDS];
    let r = lines::read(behind_verb(), &mut words, text, 0, text.len());
    let s = r.place;
    if s.ended == 1 && s.begun == 1 && r.at == text.len() {
        return Some(s.word);
    }
    None
}

// An argument as a number, if it is one.
fn argument(rt: &impl Env, i: usize) -> Option<u64> {
    let mut text = [0u8; NAME];
    match rt.arg(i, &mut text) {
        Ok(n) => number_in(&text[..n]),
        Err(_) => None,
    }
}

// How many steps of its save come before a step.
fn before(step: u64) -> u64
    ensures { result ≤ 24 }
{
    if LAST_STEP < step {
        return COMMIT - 1;
    }
    step.saturating_sub(1)
}

// The store that a step's call is made on: the one that saves left, or the one that asks the most work.
fn readied(st: Store, step: u64, w: &mut Words) -> Store {
    if step == WORST {
        return with_worst(st, w);
    }
    st
}

// Makes a step's call count times, after so many steps of saves.
fn time(step: u64, count: u64, steps: u64) -> Tally {
    let mut w = Words {
        live: [0; LIVES],
        history: [0; HISTORIES],
        base: [0; BASES],
        lists: [0; GATHERINGS],
        queues: [0; QUEUES],
        copy: [0; COPY],
        held: [0; OUTGOING],
        out: [0; OUTGOING],
    };
    let saved = played(steps, &mut w);
    let st = readied(saved, step, &mut w);
    time_step(st, count, step, &mut w)
}

fn say(rt: &impl Print, t: Tally) {
    let words = t.words;
    let refused = t.refused;
    let _ = println!(rt; "{words} words, {refused} refused");
}

fn complain(rt: &impl Eprint, what: &str) {
    let _ = eprintln!(rt; "timing: {what}");
}

// How many saves come first: the third argument, if there is one.
fn saves_asked(rt: &impl Env) -> Option<u64> {
    let mut none = [0u8; 0];
    if let Err(FillError::NotPresent) = rt.arg(3, &mut none) {
        return Some(SAVES);
    }
    argument(rt, 3)
}

fn run<R: Print + Eprint>(rt: &R, step: u64, count: u64, saves: u64) {
    if LAST_TIMED < step {
        complain(rt, STEP_ASKED);
        return;
    }
    if MOST_SAVES < saves {
        complain(rt, "the third argument has to be at most 1000000");
        return;
    }
    let steps = saves * LAST_STEP + before(step);
    say(rt, time(step, count, steps));
}

fn main(rt: HostRuntime) {
    let Some(step) = argument(&rt, 1) else {
        complain(&rt, STEP_ASKED);
        return;
    };
    let Some(count) = argument(&rt, 2) else {
        complain(
            &rt,
            "the second argument has to be how often to make the call",
        );
        return;
    };
    let Some(saves) = saves_asked(&rt) else {
        complain(
            &rt,
            "the third argument has to be how many saves come before, or is left out",
        );
        return;
    };
    run(&rt, step, count, saves);
}
