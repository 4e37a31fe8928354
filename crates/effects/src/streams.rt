// The merger's lines, and the copies'.
use crate::{Done, Lent, absent, buffer_of, first_keys, pattern};
use kinds::sizes::COPY;
use kinds::{Answer, Merger, MergerOut};
use pages::is_refused;
use pieces::{front, front_mut, piece_mut};
use pokes::{poke_copy, poke_merger};
use verbs::{Line, verb};

// Words of a place for a copy: one more than a copy has, so that too many can be lent.
pub const COPY_PLACE: usize = COPY + 1;

pub const COPIES: usize = 2;

#[derive(Clone, Copy)]
pub struct MergerDone {
    pub done: Done,
    pub merger: Merger,
}

fn start(g: Merger, sites: u64, lent: Lent, queues: &mut [u64]) -> MergerOut {
    let table = front(&lent.firsts, first_keys(lent, sites));
    let o = store::start_merger(sites, table, queues);
    if is_refused(o.answer) {
        return MergerOut {
            answer: o.answer,
            words: 0,
            merger: g,
        };
    }
    o
}

fn merger_call(
    g: Merger,
    l: Line,
    lent: Lent,
    m: &[u64],
    queues: &mut [u64],
    out: &mut [u64],
) -> MergerOut {
    match l.verb {
        verb::MERGE => store::merge(g, queues, m),
        verb::EMIT => store::emit(g, queues, out),
        verb::OPEN => start(g, l.a, lent, queues),
        _ => poke_merger(g, queues, l),
    }
}

fn whole(g: Merger, queues: &[u64]) -> u64 {
    sums::of_words(sums::whole::merger(g), queues)
}

fn state_of(a: Answer, sum: u64) -> u64 {
    if is_refused(a) {
        return 0;
    }
    sum
}

// Calls the merger, and compares it before and after.
pub fn at_merger(
    g: Merger,
    l: Line,
    lent: Lent,
    m: &[u64],
    queues: &mut [u64],
    out: &mut [u64],
) -> MergerDone {
    let before = whole(g, queues);
    pattern(out);
    let o = merger_call(g, l, lent, m, front_mut(queues, lent.queues), out);
    let after = whole(o.merger, queues);
    MergerDone {
        done: Done {
            answer: o.answer,
            words: o.words,
            buffer: buffer_of(l.verb, out),
            same: before == after,
            state: state_of(o.answer, after),
        },
        merger: o.merger,
    }
}

fn copy_call(l: Line, m: &[u64], copy: &mut [u64]) -> Answer {
    match l.verb {
        verb::REPLAY => store::replay(copy, m),
        verb::VALUE => store::value(copy, l.b),
        verb::BLANK => store::start_copy(copy),
        _ => poke_copy(copy, l.b, l.c),
    }
}

fn copy_done(l: Line, n: usize, m: &[u64], copy: &mut [u64]) -> Done {
    let before = sums::of_words(0, copy);
    let answer = copy_call(l, m, front_mut(copy, n));
    let after = sums::of_words(0, copy);
    Done {
        answer,
        words: 0,
        buffer: 0,
        same: before == after,
        state: state_of(answer, sums::of_words(0, front(copy, COPY))),
    }
}

// Calls a copy, and compares it before and after.
pub fn at_copy(l: Line, lent: Lent, m: &[u64], copies: &mut [u64]) -> Done {
    if l.a < 1 || l.a > COPIES as u64 {
        return absent();
    }
    let at = (l.a - 1) as usize * COPY_PLACE;
    copy_done(l, lent.copy, m, piece_mut(copies, at, COPY_PLACE))
}
