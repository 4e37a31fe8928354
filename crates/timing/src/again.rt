// One call again and again, each time on the same state.
use kinds::sizes::{COPY, COPY_HEADER, LIVE_WORDS, PART, PLACE, QUEUES, SITE_QUEUE};
use kinds::word::{LAST_COORDINATOR, LAST_NUMBER};
use kinds::{Answer, Core, Merger};
use pieces::{piece, piece_mut};
use rounds::play::{LIVES, Store, Words, core_in, make_at};
use rounds::step::{Save, WORST, site_of};
use slices::copy_words;

// What calls did: how many were refused, and how many words they wrote in all.
#[derive(Clone, Copy)]
pub struct Tally {
    pub refused: u64,
    pub words: u64,
}

// What an emit and a replay change in lent words, and have to find again: the head of each site's queue, and the copy's last pair.
pub const AHEAD: usize = PART + PART + COPY_HEADER;

pub fn keep_ahead(ahead: &mut [u64; AHEAD], queues: &[u64; QUEUES], copy: &[u64; COPY]) {
    ahead[..PART].copy_from_slice(&queues[..PART]);
    ahead[PART..PART + PART].copy_from_slice(&queues[SITE_QUEUE..SITE_QUEUE + PART]);
    ahead[PART + PART] = copy[LAST_NUMBER];
    ahead[PART + PART + 1] = copy[LAST_COORDINATOR];
}

fn put_back(ahead: &[u64; AHEAD], queues: &mut [u64; QUEUES], copy: &mut [u64; COPY]) {
    queues[..PART].copy_from_slice(&ahead[..PART]);
    queues[SITE_QUEUE..SITE_QUEUE + PART].copy_from_slice(&ahead[PART..PART + PART]);
    copy[LAST_NUMBER] = ahead[PART + PART];
    copy[LAST_COORDINATOR] = ahead[PART + PART + 1];
}

// Where the words of the part begin that a step's call changes. A save's part has the first place at each site.
fn words_of(step: u64) -> usize {
    if step == WORST {
        return LIVES - PLACE;
    }
    if site_of(step) == 0 {
        return 0;
    }
    LIVE_WORDS
}

fn keep_place(kept: &mut [u64; PLACE], live: &[u64], step: u64) {
    let place = piece(live, words_of(step), PLACE);
    if place.len() == PLACE {
        copy_words(kept, place);
    }
}

fn put_place(kept: &[u64; PLACE], live: &mut [u64], step: u64) {
    let place = piece_mut(live, words_of(step), PLACE);
    if place.len() == PLACE {
        copy_words(place, kept);
    }
}

// The sum with one call more.
fn tallied(sum: Tally, a: Answer, words: usize) -> Tally {
    let mut t = sum;
    match a {
        Answer::Refused(_) => t.refused = t.refused.wrapping_add(1),
        _ => t.words = t.words.wrapping_add(words as u64),
    }
    t
}

// Adds one call to the sum, and drops the state after it.
fn once(
    sum: Tally,
    site: usize,
    step: u64,
    v: Save,
    p: Core,
    g: Merger,
    w: &mut Words,
    n: usize,
) -> Tally {
    let d = make_at(site, step, v, p, g, w, n);
    tallied(sum, d.answer, d.words)
}

// The timed loop. Every turn of every step puts back what an emit, a replay and a call of the site change, so that it cancels out
// between steps.
fn again(
    count: u64,
    site: usize,
    step: u64,
    v: Save,
    p: Core,
    g: Merger,
    w: &mut Words,
    n: usize,
) -> Tally {
    let mut ahead = [0u64; AHEAD];
    let mut kept = [0u64; PLACE];
    keep_ahead(&mut ahead, &w.queues, &w.copy);
    keep_place(&mut kept, &w.live, step);
    let mut sum = Tally {
        refused: 0,
        words: 0,
    };
    for _ in 0..count {
        put_back(&ahead, &mut w.queues, &mut w.copy);
        put_place(&kept, &mut w.live, step);
        sum = once(sum, site, step, v, p, g, w, n);
    }
    sum
}

// Makes a step's call count times.
pub fn time_step(st: Store, count: u64, step: u64, w: &mut Words) -> Tally {
    let site = site_of(step);
    let p = core_in(st, site);
    again(count, site, step, st.save, p, st.merger, w, st.words)
}
