// What the entries of a message must be. The functions take the words of the entries alone.
ghost use Rattle.std.specs.Prelude.{◌≡◌, ◌+◌, ◌*◌, ◌≤◌, ◌<◌, length};
ghost use Rattle.laws.specs.Scan.{all_below};
ghost use Rattle.kinds.specs.Sizes as sizes;
ghost use Rattle.rules.specs.Message.{entry_before, entry_possible, entry_ok};

use kinds::sizes::ENTRY;
use kinds::{House, word};
use numbers::{is_mask, is_tx};

// The transaction of the entry before, 0 before the first.
// Stays: 0 is below each transaction, so the one comparison serves the first entry too; an option needs a second.
#[tactic(auto, unfolding(rules::specs::Message::entry_before))]
fn entry_before(es: &[u64], i: usize) -> u64
    requires { (i < sizes.cert_entries) × (sizes.entry * i + 2 < length es.now) }
    ensures { result ≡ entry_before es.now i }
{
    if i == 0 {
        0
    } else {
        es[ENTRY * (i - 1) + word::ENTRY_TX]
    }
}

// What one entry says: a transaction, participants and a mark of the house.
#[tactic(auto, unfolding(rules::specs::Message::entry_possible))]
fn entry_possible(o: House, es: &[u64], i: usize) -> bool
    requires sites_le_sites { o.sites ≤ sizes.sites }
    requires i_lt_cert_entries { (i < sizes.cert_entries) × (sizes.entry * i + 2 < length es.now) }
    ensures { result ≡ entry_possible o es.now i }
{
    let tx = es[ENTRY * i + word::ENTRY_TX];
    let mask = es[ENTRY * i + word::ENTRY_MASK];
    let mark = es[ENTRY * i + word::ENTRY_MARK];
    is_tx(o, tx) && is_mask(o, mask) && mark <= 1
}

#[tactic(auto, unfolding(rules::specs::Message::entry_ok))]
fn entry_ok(o: House, es: &[u64], i: usize) -> bool
    requires sites_le_sites { o.sites ≤ sizes.sites }
    requires i_lt_cert_entries { (i < sizes.cert_entries) × (sizes.entry * i + 2 < length es.now) }
    ensures { result ≡ entry_ok o es.now i }
{
    entry_before(es, i) < es[ENTRY * i + word::ENTRY_TX] && entry_possible(o, es, i)
}

// Whether each of the first n entries is possible, in whatever order they stand.
pub fn entries_possible(o: House, es: &[u64], n: usize) -> bool
    requires sites_le_sites { o.sites ≤ sizes.sites }
    requires n_le_cert_entries { (n ≤ sizes.cert_entries) × (sizes.entry * n ≤ length es.now) }
    ensures { result ≡ all_below (entry_possible o es.now) n }
{
    for i in 0..n {
        if !entry_possible(o, es, i) {
            return false;
        }
    }
    true
}

pub fn entries_ok(o: House, es: &[u64], n: usize) -> bool
    requires sites_le_sites { o.sites ≤ sizes.sites }
    requires n_le_cert_entries { (n ≤ sizes.cert_entries) × (sizes.entry * n ≤ length es.now) }
    ensures { result ≡ all_below (entry_ok o es.now) n }
{
    for i in 0..n {
        if !entry_ok(o, es, i) {
            return false;
        }
    }
    true
}
