// The words in hand, which message, merge and replay hand in: made by a probe's lines, or fetched from what calls wrote.
#![tactic(auto)]

pub mod store;

use kinds::sizes::{ENTRY, MESSAGE_HEADER, RECORD_HEADER, WRITE};
use kinds::{Answer, Refusal, word};
use numbers::coordinator_of;
use pieces::{front, front_mut, piece, put};
use slices::{copy_words, fill_words};
use store::{LABEL, STORE, find_letter, find_record};
use verbs::{Line, verb};

// Words that can be in hand.
pub const HAND: usize = 1200;

// More entries, and more writes, than any message or record has.
const ENTRIES: u64 = 380;

const WRITES: u64 = 140;

// Takes the item at a place of the store, and answers how many words are in hand.
fn load(hand: &mut [u64], now: usize, store: &[u64], at: usize) -> usize {
    let n = pieces::word(piece(store, at, LABEL), 1);
    if n > HAND as u64 {
        return now;
    }
    let label = piece(store, at, LABEL + n as usize);
    let item = piece(label, LABEL, n as usize);
    if hand.len() < item.len() {
        return now;
    }
    copy_words(hand, item);
    item.len()
}

// A message without entries.
fn head(hand: &mut [u64], kind: u64, from: u64, to: u64, channel: u64) -> usize {
    fill_words(front_mut(hand, MESSAGE_HEADER));
    put(hand, word::LENGTH, MESSAGE_HEADER as u64);
    put(hand, word::KIND, kind);
    put(hand, word::FROM, from);
    put(hand, word::TO, to);
    put(hand, word::CHANNEL, channel);
    MESSAGE_HEADER
}

// A record without writes.
fn form(hand: &mut [u64], kind: u64, site: u64, number: u64, tx: u64) -> usize {
    fill_words(front_mut(hand, RECORD_HEADER));
    put(hand, word::LENGTH, RECORD_HEADER as u64);
    put(hand, word::KIND, kind);
    put(hand, word::SITE, site);
    put(hand, word::NUMBER, number);
    put(hand, word::COORDINATOR, coordinator_of(tx));
    put(hand, word::RECORD_TX, tx);
    RECORD_HEADER
}

// n entries of transactions that ascend by 1, and their count and offset in the header.
fn entries(hand: &mut [u64], n: u64, tx: u64, mask: u64, mark: u64) -> usize {
    if n > ENTRIES {
        return 0;
    }
    let count = n as usize;
    for i in 0..count {
        let at = MESSAGE_HEADER + ENTRY * i;
        put(hand, at, tx.wrapping_add(i as u64));
        put(hand, at + word::ENTRY_MASK, mask);
        put(hand, at + word::ENTRY_MARK, mark);
    }
    let length = MESSAGE_HEADER + ENTRY * count;
    put(hand, word::LENGTH, length as u64);
    put(hand, word::ENTRY_COUNT, n);
    put(hand, word::ENTRY_OFFSET, MESSAGE_HEADER as u64);
    length
}

// n writes of keys and starts that ascend by 1, each of one length (Q12.1), and their count and offset in the header.
fn writes(hand: &mut [u64], n: u64, key: u64, start: u64, length: u64) -> usize {
    if n > WRITES {
        return 0;
    }
    let count = n as usize;
    for i in 0..count {
        let at = RECORD_HEADER + WRITE * i;
        let value = at + word::WRITE_VALUE;
        put(hand, at, key.wrapping_add(i as u64));
        put(
            hand,
            value + word::VALUE_START,
            start.wrapping_add(i as u64),
        );
        put(hand, value + word::VALUE_LENGTH, length);
    }
    let words = RECORD_HEADER + WRITE * count;
    put(hand, word::LENGTH, words as u64);
    put(hand, word::WRITE_COUNT, n);
    put(hand, word::WRITE_OFFSET, RECORD_HEADER as u64);
    words
}

fn cut(n: u64) -> usize {
    n.min(HAND as u64) as usize
}

fn set(hand: &mut [u64], now: usize, i: u64, v: u64) -> usize {
    if i < HAND as u64 {
        put(hand, i as usize, v);
    }
    now
}

// Obeys a line on the words in hand, and answers how many they are; nothing where the line asks for an item that is not there.
pub fn shaped(
    l: Line,
    hand: &mut [u64],
    now: usize,
    store: &[u64; STORE],
    used: usize,
) -> Option<usize> {
    let words = match l.verb {
        verb::LETTER => load(hand, now, store, find_letter(store, used, l.a, l.b, l.c)?),
        verb::RECORD => load(hand, now, store, find_record(store, used, l.a, l.b)?),
        verb::WORD => set(hand, now, l.a, l.b),
        verb::CUT => cut(l.a),
        verb::HEAD => head(hand, l.a, l.b, l.c, l.d),
        verb::ENTRIES => entries(hand, l.a, l.b, l.c, l.d),
        verb::FORM => form(hand, l.a, l.b, l.c, l.d),
        verb::WRITES => writes(hand, l.a, l.b, l.c, l.d),
        _ => now,
    };
    Some(words)
}

// How many words are in hand, and their checksum; that there is nothing, where what was asked for is not there.
pub fn shown(hand: &[u64], words: Option<usize>) -> Answer {
    match words {
        Some(n) => Answer::Installed {
            number: n as u64,
            coordinator: sums::of_words(0, front(hand, n)),
        },
        None => Answer::Refused(Refusal::Nothing.into()),
    }
}
