// The lines that convert bookmarks: for no site, merger or copy.
use crate::{Done, buffer_of, pattern, written};
use kinds::Answer;
use verbs::{Line, verb};

fn converted(l: Line, offsets: &[u64], out: &mut [u64]) -> Answer {
    match l.verb {
        verb::PAGE => store::page(l.a, l.b),
        verb::OFFSET => store::offset(l.a, l.b, l.c),
        _ => store::pages(l.a, offsets, out),
    }
}

// A run alone writes to the buffer.
fn words_of(v: u64, a: Answer, room: usize) -> usize {
    if v == verb::RUN {
        return written(a, room);
    }
    0
}

// Converts, and compares the offsets before and after. There is no state.
pub fn at_bookmarks(l: Line, offsets: &[u64], out: &mut [u64]) -> Done {
    let before = sums::of_words(0, offsets);
    pattern(out);
    let answer = converted(l, offsets, out);
    Done {
        answer,
        words: words_of(l.verb, answer, out.len()),
        buffer: buffer_of(l.verb, out),
        same: before == sums::of_words(0, offsets),
        state: 0,
    }
}
