// Words in lent bytes (Q1.2): eight bytes to a word, the least significant first.

#![tactic(auto)]

mod eight;

ghost use Rattle.std.specs.Prelude.{◌≡◌, ◌+◌, ◌*◌, ◌/◌, ◌≤◌, ◌<◌, length, get_or, set, replicate};
ghost use Rattle.laws.specs.Overlay.{overlay};
ghost use Rattle.laws.specs.Bytes.{bytes_of, words_of, Hold};

use eight::{get_word, put_word};

// Bytes of a word.
pub const BYTES: usize = 8;

// Word i of some bytes.
pub fn word_at(b: &[u8], i: usize) -> u64
    requires { i < length b.now / 8 }
    ensures { result ≡ get_or (words_of b.now) i 0 }
{
    get_word(&b[BYTES * i..])
}

// Sets word i of bytes that are whole words.
pub fn set_word(b: &mut [u8], i: usize, x: u64)
    requires { (i < length b.old / 8) × (length b.old ≡ 8 * (length b.old / 8)) }
    ensures { Hold b.new (set (words_of b.old) i x) }
{
    put_word(&mut b[BYTES * i..], x);
}

// Sets every byte to 0.
pub fn fill_bytes(b: &mut [u8])
    ensures { b.new ≡ replicate (length b.old) 0 }
{
    b.fill(0);
}

// Writes words to as many bytes as they have.
pub fn write_words(b: &mut [u8], ws: &[u64])
    requires { length b.old ≡ 8 * length ws.now }
    ensures { b.new ≡ bytes_of ws.now }
{
    for i in 0..ws.len() {
        put_word(&mut b[BYTES * i..], ws[i]);
    }
}

// Lays the words of some bytes over the front of `ws`.
pub fn read_words(ws: &mut [u64], b: &[u8])
    requires { length b.now / 8 ≤ length ws.old }
    ensures { ws.new ≡ overlay ws.old (words_of b.now) }
{
    for i in 0..b.len() / BYTES {
        ws[i] = word_at(b, i);
    }
}
