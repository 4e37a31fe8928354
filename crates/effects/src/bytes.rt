// The line that writes a record to bytes (Q1.8): for no site, merger or copy.
use crate::{Done, filler, written};
use pieces::front_mut;
use verbs::Line;

// Bytes for a record, more than any has.
const BYTES: usize = 4096;

// The least significant byte of a word.
fn least_byte(w: u64) -> u8 {
    (w % 256) as u8
}

// Fills bytes, each by the pattern's word with its number.
fn pattern_bytes(bs: &mut [u8]) {
    for (i, b) in bs.iter_mut().enumerate() {
        *b = least_byte(filler(i));
    }
}

// Writes the words to bytes, and compares the words before and after. There is no state.
fn to_bytes(m: &[u64], out: &mut [u8]) -> Done {
    let before = sums::of_words(0, m);
    pattern_bytes(out);
    let answer = store::record_bytes(m, out);
    Done {
        answer,
        words: written(answer, out.len()),
        buffer: sums::of_words(0, out),
        same: before == sums::of_words(0, m),
        state: 0,
    }
}

// The buffer has as many bytes as the line says, and nothing of it is kept.
pub fn at_bytes(l: Line, m: &[u64]) -> Done {
    let mut all = [0u8; BYTES];
    to_bytes(m, front_mut(&mut all, l.a as usize))
}
