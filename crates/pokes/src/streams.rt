// Pokes of the merger and of a copy.
use crate::houses::poke_house;
use kinds::sizes::{COPY, SITE_QUEUE, SITES};
use kinds::{Answer, Merger, MergerOut, Source};
use pieces::put;
use verbs::{Line, verb};

// Fields of what the merger keeps of a site.
const STATE: u64 = 0;

const NUMBER: u64 = 1;

const COORDINATOR: u64 = 2;

const QUEUED: u64 = 3;

fn source(c: Source, field: u64, v: u64) -> Source {
    let mut d = c;
    match field {
        STATE => {
            d.state = v;
            d
        }
        NUMBER => {
            d.number = v;
            d
        }
        COORDINATOR => {
            d.coordinator = v;
            d
        }
        QUEUED => {
            d.queued = v as usize;
            d
        }
        _ => d,
    }
}

fn poke_table(g: Merger, field: u64, v: u64) -> Merger {
    let k = poke_house(g.house, field, v);
    let mut h = g;
    h.house = k;
    h
}

fn poke_source(g: Merger, site: u64, field: u64, v: u64) -> Merger {
    if site < 1 {
        return g;
    }
    if site > SITES as u64 {
        return g;
    }
    let i = (site - 1) as usize;
    let c = g.sources[i];
    let d = source(c, field, v);
    let mut h = g;
    h.sources[i] = d;
    h
}

// A word of a site's queue.
fn poke_queue(queues: &mut [u64], site: u64, i: u64, v: u64) {
    if site < 1 {
        return;
    }
    if site > SITES as u64 {
        return;
    }
    if i >= SITE_QUEUE as u64 {
        return;
    }
    put(queues, (site - 1) as usize * SITE_QUEUE + i as usize, v);
}

fn poked(g: Merger, queues: &mut [u64], l: Line) -> Merger {
    let v = l.verb;
    match v {
        verb::MERGER => poke_table(g, l.a, l.b),
        verb::SOURCE => poke_source(g, l.a, l.b, l.c),
        _ => {
            poke_queue(queues, l.a, l.b, l.c);
            g
        }
    }
}

pub fn poke_merger(g: Merger, queues: &mut [u64], l: Line) -> MergerOut {
    MergerOut {
        answer: Answer::Done,
        words: 0,
        merger: poked(g, queues, l),
    }
}

// A word of a copy.
pub fn poke_copy(copy: &mut [u64], i: u64, v: u64) -> Answer {
    if i < COPY as u64 {
        put(copy, i as usize, v);
    }
    Answer::Done
}
