// Checksums of words and of states, below the prime 2^32 − 5.
#![tactic(auto)]

pub mod seen;
pub mod whole;

ghost use Rattle.std.specs.Prelude.{◌<◌};

use kinds::House;
use kinds::sizes::VALUE;
use kinds::word::{VALUE_LENGTH, VALUE_START};
use pieces::front;

const PRIME: u64 = 4294967291;

const FACTOR: u64 = 69069;

const HALF: u64 = 4294967296;

// The sum with one word more: its lower half, then its upper.
pub fn more(h: u64, w: u64) -> u64
    ensures { result < 4294967291 }
{
    let low = (h % PRIME * FACTOR + w % HALF) % PRIME;
    (low * FACTOR + w / HALF) % PRIME
}

pub fn three_more(h: u64, a: u64, b: u64, c: u64) -> u64 {
    more(more(more(h, a), b), c)
}

// A sum of sums, in any order.
pub fn together(a: u64, b: u64) -> u64
    ensures { result < 4294967291 }
{
    (a % PRIME + b % PRIME) % PRIME
}

// Each word, or each byte as a word, behind what is summed before.
pub fn of_words<W: Copy + Into<u64>>(h: u64, ws: &[W]) -> u64 {
    ws.iter().fold(h, |sum, w| more(sum, (*w).into()))
}

// The number of sites of a house, and the eight places of its table (Q3.5).
fn of_house(h: House) -> u64 {
    of_words(h.sites, &h.firsts)
}

// The first n keys as a set.
pub fn of_set(ks: &[u64], n: u64) -> u64 {
    front(ks, n as usize)
        .iter()
        .fold(0, |sum, k| together(sum, more(1, *k)))
}

// The first n keys with their values, each a start and a length, as a set.
pub fn of_writes(ks: &[u64], vs: &[u64], n: u64) -> u64 {
    let mut sum: u64 = 0;
    for (k, v) in front(ks, n as usize).iter().zip(vs.chunks_exact(VALUE)) {
        sum = together(sum, three_more(2, *k, v[VALUE_START], v[VALUE_LENGTH]));
    }
    sum
}
