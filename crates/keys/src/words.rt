// A part's keys in words: from word `o` on the counts, the keys read, the keys written and their values. They are read where they lie.
ghost use Rattle.std.specs.Prelude.{◌≡◌, ℕ, ◌+◌, ◌*◌, ◌≤◌, length};
ghost use Rattle.kinds.specs.Sizes as sizes;
ghost use Rattle.kinds.specs.declared.House.{House};
ghost use Rattle.rules.specs.Value.{values_fit};
ghost use Rattle.rules.specs.Keys.{wrote_key, wrote_value, keys_at, keys_ok};
ghost use Rattle.lent.specs.Layout.{words_from, values_from, keys_from};
ghost use Rattle.lent.specs.Read.{Wrote};
ghost use Rattle.keys.specs.Range.{RangeOf};

use super::key_place;
use kinds::sizes::{READS, VALUE, WRITES};
use kinds::{Key, Value, word};
use values::{fits, value_at};

pub fn wrote_key_in(w: &[u64], o: usize, k: Key) -> bool
    requires { (o + sizes.keyset ≤ length w.now) × ((keys_from w.now o).wrote ≤ sizes.writes) }
    ensures { result ≡ wrote_key (keys_from w.now o) k }
{
    let n = w[o + word::KEYS_WROTE] as usize;
    key_place(&w[o + word::KEYS_WRITES..], n, k).is_some()
}

// The value that was written to `k`.
pub fn wrote_value_in(w: &[u64], o: usize, k: Key) -> Value
    requires { Wrote w.now o k }
    ensures { result ≡ wrote_value (keys_from w.now o) k }
{
    let n = w[o + word::KEYS_WROTE] as usize;
    let place = key_place(&w[o + word::KEYS_WRITES..], n, k).unwrap();
    value_at(w, o + word::KEYS_VALUES + VALUE * place)
}

// Whether the first `n` words from word `at` on are among the `count` keys from `first` on, the range of a site (Q3.1). A key below
// `first` wraps to a number above every count.
fn keys_at_in(first: Key, count: u64, w: &[u64], at: usize, n: usize) -> bool
    requires { (n ≤ sizes.writes) × (at + sizes.writes ≤ length w.now) × (first + count ≤ sizes.keys) }
    ensures { (o : House) (own : ℕ) → RangeOf o own first count
        → result ≡ keys_at o own (words_from w.now at sizes.writes) n }
{
    for i in 0..n {
        let above = w[at + i].wrapping_sub(first);
        if count <= above {
            return false;
        }
    }
    true
}

// Whether the first `n` values from word `at` on fit (Q12.5).
fn values_fit_in(w: &[u64], at: usize, n: usize) -> bool
    requires { (n ≤ sizes.writes) × (at + sizes.value * sizes.writes ≤ length w.now) }
    ensures { result ≡ values_fit (values_from w.now at sizes.writes) n }
{
    for i in 0..n {
        if !fits(value_at(w, at + VALUE * i)) {
            return false;
        }
    }
    true
}

// Whether the counts are within the sizes, the keys are of the site whose range is the `count` keys from `first` on, and the values
// written fit.
pub fn keys_ok_in(first: Key, count: u64, w: &[u64], at: usize) -> bool
    requires { (at + sizes.keyset ≤ length w.now) × (first + count ≤ sizes.keys) }
    ensures { (o : House) (own : ℕ) → RangeOf o own first count → result ≡ keys_ok o own (keys_from w.now at) }
{
    let read = w[at + word::KEYS_READ] as usize;
    let wrote = w[at + word::KEYS_WROTE] as usize;
    if READS < read {
        return false;
    }
    if WRITES < wrote {
        return false;
    }
    if !keys_at_in(first, count, w, at + word::KEYS_READS, read) {
        return false;
    }
    if !keys_at_in(first, count, w, at + word::KEYS_WRITES, wrote) {
        return false;
    }
    values_fit_in(w, at + word::KEYS_VALUES, wrote)
}
