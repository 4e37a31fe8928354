// Saves over two sites, one behind the other.
use crate::step::{LAST_STEP, Made, Save, half, make, site_of};
use kinds::sizes::{BASE, COPY, HISTORY_WORDS, LISTS, LIVE_WORDS, OUTGOING, QUEUES, SITE_KEYS};
use kinds::{Answer, Core, Merger};
use pieces::front;

pub const PAIR: usize = 2;

// The first keys of both sites.
const EVEN: [u64; PAIR] = [0, SITE_KEYS];

// Live parts, histories, base values and gathered lists of both sites, one behind the other.
pub const LIVES: usize = PAIR * LIVE_WORDS;

pub const HISTORIES: usize = PAIR * HISTORY_WORDS;

pub const BASES: usize = PAIR * BASE;

pub const GATHERINGS: usize = PAIR * LISTS;

// The words that calls are lent: those of both sites, the merger's queues and a copy; what is kept of the calls that wrote, for the next
// one to take, and what a call writes.
#[derive(Drop)]
pub struct Words {
    pub live: [u64; LIVES],
    pub history: [u64; HISTORIES],
    pub base: [u64; BASES],
    pub lists: [u64; GATHERINGS],
    pub queues: [u64; QUEUES],
    pub copy: [u64; COPY],
    pub held: [u64; OUTGOING],
    pub out: [u64; OUTGOING],
}

// Both sites, the merger, the save that is played, and how many words the last writing call wrote.
#[derive(Clone, Copy)]
pub struct Store {
    pub one: Core,
    pub two: Core,
    pub merger: Merger,
    pub save: Save,
    pub words: usize,
}

fn start_at(i: usize, own: u64, w: &mut Words) -> Core {
    store::start_site(
        PAIR as u64,
        &EVEN,
        own,
        half(&mut w.live, i),
        half(&mut w.history, i),
        half(&mut w.base, i),
        half(&mut w.lists, i),
    )
    .core
}

fn start(w: &mut Words) -> Store {
    let one = start_at(0, 1, w);
    let two = start_at(1, 2, w);
    let merger = store::start_merger(PAIR as u64, &EVEN, &mut w.queues).merger;
    store::start_copy(&mut w.copy);
    Store {
        one,
        two,
        merger,
        save: Save { tx: 0, before: 0 },
        words: 0,
    }
}

// Keeps what a call wrote, if it wrote anything, and answers how many words are kept now.
fn kept(held: &mut [u64; OUTGOING], out: &[u64; OUTGOING], n: usize, before: usize) -> usize {
    if n == 0 {
        return before;
    }
    let m = n.min(OUTGOING);
    held[..m].copy_from_slice(&out[..m]);
    n
}

// The save's transaction, which its begin gives.
fn tx_after(a: Answer, before: u64) -> u64 {
    match a {
        Answer::Begun { tx } => tx,
        _ => before,
    }
}

// The core of a site by its number less 1.
pub fn core_in(st: Store, i: usize) -> Core {
    if i == 0 {
        return st.one;
    }
    st.two
}

// The store after a call of a save, which site i was handed to, with so many words kept.
fn settled(st: Store, i: usize, v: Save, d: Made, words: usize) -> Store {
    let mut t = st;
    t.merger = d.merger;
    t.save = Save {
        tx: tx_after(d.answer, v.tx),
        before: v.before,
    };
    t.words = words;
    if i == 0 {
        t.one = d.core;
    } else {
        t.two = d.core;
    }
    t
}

// A step's call with the first n words that are kept, of both sites' words site i's own.
pub fn make_at(i: usize, step: u64, v: Save, p: Core, g: Merger, w: &mut Words, n: usize) -> Made {
    make(
        step,
        v,
        p,
        g,
        half(&mut w.live, i),
        half(&mut w.history, i),
        half(&mut w.base, i),
        half(&mut w.lists, i),
        &mut w.queues,
        &mut w.copy,
        front(&w.held, n),
        &mut w.out,
    )
}

// Makes the call of the step that n steps, of this save and of those before it, come before.
fn play_step(st: Store, n: u64, w: &mut Words) -> Store {
    let step = n % LAST_STEP + 1;
    let i = site_of(step);
    let v = Save {
        tx: st.save.tx,
        before: n / LAST_STEP,
    };
    let d = make_at(i, step, v, core_in(st, i), st.merger, w, st.words);
    let words = kept(&mut w.held, &w.out, d.words, st.words);
    settled(st, i, v, d, words)
}

// A fresh store after n steps: whole saves, and of the last perhaps a part.
pub fn played(n: u64, w: &mut Words) -> Store {
    let mut st = start(w);
    for i in 0..n {
        st = play_step(st, i, w);
    }
    st
}
