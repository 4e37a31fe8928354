// A probe's lines as calls of a site, the merger or a copy, as conversions, or as a record's bytes, and what each call leaves.
#![tactic(auto)]

mod bytes;
mod conversions;
mod sites;
mod streams;

pub use bytes::at_bytes;
pub use conversions::at_bookmarks;
use kinds::sizes::SITES;
use kinds::{Answer, Key, Refusal};
use pages::is_refused;
pub use sites::{SiteDone, at_site, start_by};
pub use streams::{COPIES, COPY_PLACE, MergerDone, at_copy, at_merger};
use verbs::verb;

// Words of the table of first keys: one more than a house has, so that too many can be lent.
pub const TABLE: usize = SITES + 1;

// Lengths lent: the outgoing buffer, the live parts, the history, the base values, the gathered lists, the merger's queues, a copy,
// the table of first keys, which has as many as the start says where no length is set. The table itself stands behind them; only starts
// are lent it.
#[derive(Clone, Copy)]
pub struct Lent {
    pub room: usize,
    pub live: usize,
    pub history: usize,
    pub base: usize,
    pub lists: usize,
    pub queues: usize,
    pub copy: usize,
    pub table: Option<usize>,
    pub firsts: [Key; TABLE],
}

// How many first keys a start with so many sites is lent.
pub fn first_keys(lent: Lent, sites: u64) -> usize {
    lent.table.unwrap_or(sites.min(TABLE as u64) as usize)
}

// What a call answered and wrote: whether the state and the lent tables are the same, the checksums of the outgoing buffer and
// of the state. A record to bytes counts bytes as its words.
#[derive(Clone, Copy)]
pub struct Done {
    pub answer: Answer,
    pub words: usize,
    pub buffer: u64,
    pub same: bool,
    pub state: u64,
}

// A site, or a copy, that is not there.
pub fn absent() -> Done {
    Done {
        answer: Answer::Refused(Refusal::Malformed.into()),
        words: 0,
        buffer: 0,
        same: true,
        state: 0,
    }
}

// Whether what a call wrote is a record.
pub fn is_logged(v: u64) -> bool {
    matches!(v, verb::INSTALL | verb::REPORT | verb::EMIT)
}

// Whether a call is lent an outgoing buffer.
fn may_write(v: u64) -> bool {
    is_logged(v)
        || matches!(
            v,
            verb::ENLIST | verb::COMMIT | verb::ABANDON | verb::MESSAGE | verb::RUN
        )
}

// How much of what it is lent a call wrote that writes all of it, or none.
fn written(a: Answer, room: usize) -> usize {
    if is_refused(a) {
        return 0;
    }
    room
}

// The checksum of an outgoing buffer; 0 where none is lent.
fn buffer_of(v: u64, out: &[u64]) -> u64 {
    if may_write(v) {
        return sums::of_words(0, out);
    }
    0
}

// Starts a word's pattern.
const SEED: u64 = 9;

// Word i of the pattern.
fn filler(i: usize) -> u64 {
    sums::more(i as u64, SEED)
}

// Fills words, so that a changed one shows.
fn pattern(ws: &mut [u64]) {
    for (i, w) in ws.iter_mut().enumerate() {
        *w = filler(i);
    }
}
