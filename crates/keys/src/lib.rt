// The keys that a part read and wrote, by value and in words, and dependence of two parts. A list of keys is copied before it is lent:
// 128 bytes, where lending a field copies all 400 of the part's keys.

#![tactic(auto)]

pub mod order;
mod words;

ghost use Rattle.std.specs.Prelude.{◌≡◌, ◌<◌, ◌≤◌, true, false, length, unwrap_or, IfSome};
ghost use Rattle.kinds.specs.Sizes as sizes;
ghost use Rattle.rules.specs.Keys.{key_place, wrote_key, read_key, wrote_value, with_read, with_write};
ghost use Rattle.rules.specs.Keys.{common_key, dependent as dependentOf};

use kinds::{Key, Keys, Value};
pub use words::{keys_ok_in, wrote_key_in, wrote_value_in};

// The place of `k` among the first `n` keys.
pub fn key_place(keys: &[Key], n: usize, k: Key) -> Option<usize>
    requires { n ≤ length keys.now }
    ensures first { unwrap_or result n ≡ key_place keys.now n k }
    ensures bound { IfSome result (λ i. i < n) }
{
    keys[..n].iter().position(|key| *key == k)
}

pub fn wrote_key(b: Keys, k: Key) -> bool
    requires { b.wrote ≤ sizes.writes }
    ensures { result ≡ wrote_key b k }
{
    let writes = b.writes;
    key_place(&writes, b.wrote, k).is_some()
}

pub fn read_key(b: Keys, k: Key) -> bool
    requires { b.read ≤ sizes.reads }
    ensures { result ≡ read_key b k }
{
    let reads = b.reads;
    key_place(&reads, b.read, k).is_some()
}

// The value that the part wrote to `k`.
pub fn wrote_value(b: Keys, k: Key) -> Value
    requires { (b.wrote ≤ sizes.writes) × (wrote_key b k ≡ true) }
    ensures { result ≡ wrote_value b k }
{
    let place = key_place(&b.writes, b.wrote, k).unwrap();
    b.values[place]
}

// The keys with `k` among those read.
pub fn with_read(b: Keys, k: Key) -> Keys
    requires { (b.read ≤ sizes.reads) × (read_key b k ≡ false → b.read < sizes.reads) }
    ensures { result ≡ with_read b k }
{
    if read_key(b, k) {
        return b;
    }
    let mut c = b;
    c.reads[b.read] = k;
    c.read += 1;
    c
}

// The keys with `v` written to `k`: over the own write of `k`, or behind the others.
pub fn with_write(b: Keys, k: Key, v: Value) -> Keys
    requires { (b.wrote ≤ sizes.writes) × (wrote_key b k ≡ false → b.wrote < sizes.writes) }
    ensures { result ≡ with_write b k v }
{
    let mut c = b;
    if let Some(place) = key_place(&b.writes, b.wrote, k) {
        c.values[place] = v;
        return c;
    }
    c.writes[b.wrote] = k;
    c.values[b.wrote] = v;
    c.wrote += 1;
    c
}

// Whether the first `n` of `a` and the first `m` of `b` have a key in common. Both scans stop at the first.
// Stays: F6 names nested loops, left by a label.
pub fn common_key(a: &[Key], n: usize, b: &[Key], m: usize) -> bool
    requires { (n ≤ length a.now) × (m ≤ length b.now) }
    ensures { result ≡ common_key a.now n b.now m }
{
    let mut found = false;
    'search: for i in 0..n {
        for j in 0..m {
            if a[i] == b[j] {
                found = true;
                break 'search;
            }
        }
    }
    found
}

// Whether one wrote a key that the other read or wrote.
pub fn dependent(a: Keys, b: Keys) -> bool
    requires read_le_reads { (a.read ≤ sizes.reads) × (a.wrote ≤ sizes.writes) }
    requires read_le_reads_2 { (b.read ≤ sizes.reads) × (b.wrote ≤ sizes.writes) }
    ensures { result ≡ dependentOf a b }
{
    common_key(&a.writes, a.wrote, &b.writes, b.wrote)
        || common_key(&a.writes, a.wrote, &b.reads, b.read)
        || common_key(&a.reads, a.read, &b.writes, b.wrote)
}
