// Messages and records that calls wrote, one behind the other: each with its kind and its length before it.
ghost use Rattle.std.specs.Prelude.{◌+◌, ◌<◌, ◌≤◌, length};
ghost use Rattle.hand.specs.Sizes as sizes;

use kinds::word::{CHANNEL, FROM, SITE, TO};
use pieces::{put, word};
use slices::copy_words;

// Words of the store.
pub const STORE: usize = 131072;

// Kinds of items.
const LETTER: u64 = 1;

const RECORD: u64 = 2;

// Words before an item.
pub const LABEL: usize = 2;

// Longer than any item.
const LONGEST: u64 = 8192;

// Writes an item with what stands before it.
fn label(place: &mut [u64], kind: u64, item: &[u64])
    requires { sizes.label + length item.now ≤ length place.old }
{
    put(place, 0, kind);
    put(place, 1, item.len() as u64);
    copy_words(&mut place[LABEL..], item);
}

// Keeps an item, if there is room, and answers how much is used.
fn keep(store: &mut [u64], used: usize, kind: u64, item: &[u64]) -> usize {
    let left = store.len().saturating_sub(used);
    if left < LABEL || left - LABEL < item.len() {
        return used;
    }
    label(&mut store[used..], kind, item);
    used + LABEL + item.len()
}

pub fn keep_record(store: &mut [u64], used: usize, item: &[u64]) -> usize {
    if item.is_empty() {
        return used;
    }
    keep(store, used, RECORD, item)
}

// The length of the message at the front, within what there is.
fn first_length(ws: &[u64]) -> usize
    ensures { result ≤ length ws.now }
{
    word(ws, 0).min(ws.len() as u64) as usize
}

// Keeps each of the messages that stand directly behind one another.
pub fn keep_letters(store: &mut [u64], used: usize, ws: &[u64]) -> usize {
    let mut last = used;
    let mut rest = ws;
    // Stays: no index is counted: a step is as long as a letter.
    while !rest.is_empty() {
        let n = first_length(rest);
        if n == 0 {
            break;
        }
        last = keep(store, last, LETTER, &rest[..n]);
        rest = &rest[n..];
    }
    last
}

// Where the item behind this one begins.
fn behind(store: &[u64; STORE], at: usize) -> usize
    requires { at < sizes.store }
    ensures { at < result }
{
    let n = word(store, at + 1);
    if n < LONGEST {
        return at + LABEL + n as usize;
    }
    at + LABEL
}

fn is_letter(store: &[u64; STORE], at: usize, from: u64, to: u64, number: u64) -> bool
    requires { at < sizes.store }
{
    word(store, at) == LETTER
        && word(store, at + LABEL + FROM) == from
        && word(store, at + LABEL + TO) == to
        && word(store, at + LABEL + CHANNEL) == number
}

// The last message from one site to another with that number.
pub fn find_letter(
    store: &[u64; STORE],
    used: usize,
    from: u64,
    to: u64,
    number: u64,
) -> Option<usize> {
    let mut found = None;
    let mut at: usize = 0;
    // Stays: no index is counted: a step is as long as an item.
    while at < used.min(STORE) {
        if is_letter(store, at, from, to, number) {
            found = Some(at);
        }
        at = behind(store, at);
    }
    found
}

fn is_record(store: &[u64; STORE], at: usize, site: u64) -> bool
    requires { at < sizes.store }
{
    word(store, at) == RECORD && word(store, at + LABEL + SITE) == site
}

// The n-th record of a site, or of the merger for 0.
pub fn find_record(store: &[u64; STORE], used: usize, site: u64, n: u64) -> Option<usize> {
    let mut left = n;
    let mut at: usize = 0;
    // Stays: no index is counted: a step is as long as an item.
    while at < used.min(STORE) {
        if is_record(store, at, site) {
            if left <= 1 {
                return Some(at);
            }
            left -= 1;
        }
        at = behind(store, at);
    }
    None
}
