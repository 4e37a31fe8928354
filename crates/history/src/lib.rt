// The history of the last installed parts: what is remembered, and the search for the version that a snapshot sees.

#![tactic(auto)]

ghost use Rattle.std.specs.Prelude.{◌≡◌, ℕ, ◌+◌, ◌≤◌, ◌<◌, length, get_or};
ghost use Rattle.kinds.specs.Sizes as sizes;
ghost use Rattle.rules.specs.History.{remembered as rememberedOf, forgotten as forgottenOf, slot_of, is_forgotten, within as withinOf};
ghost use Rattle.rules.specs.History.{search_in, is_newer, forget_into};
ghost use Rattle.lent.specs.Layout.{history_of};
ghost use Rattle.lent.specs.Read.{Slots};

use keys::{wrote_key_in, wrote_value_in};
use kinds::sizes::{HISTORY, SLOT, VALUE};
use kinds::word::SLOT_KEYS;
use kinds::{Key, Keys, Search, Snapshot};
use values::{put_value, value_at};

// How many installs are remembered.
pub fn remembered(installs: u64) -> usize
    ensures { result ≡ rememberedOf installs }
{
    installs.min(HISTORY as u64) as usize
}

// How many installs are forgotten.
pub fn forgotten(installs: u64) -> u64
    ensures { result ≡ forgottenOf installs }
{
    installs.saturating_sub(HISTORY as u64)
}

// The slot of the `i`-th remembered install, oldest first.
pub fn recall_slot(installs: u64, i: usize) -> usize
    requires { i ≤ sizes.history }
    ensures { result ≡ slot_of (forgottenOf installs + i) }
{
    let first = forgotten(installs);
    ((first + i as u64) % HISTORY as u64) as usize
}

// Whether an install after the snapshot has been forgotten.
pub fn is_forgotten(installs: u64, p: Snapshot) -> bool
    ensures { result ≡ is_forgotten installs p }
{
    p.installs < forgotten(installs)
}

// How many remembered installs are within the snapshot.
pub fn within(installs: u64, p: Snapshot) -> usize
    ensures { result ≡ withinOf installs p }
{
    let seen = p.installs.min(installs);
    seen.saturating_sub(forgotten(installs)) as usize
}

// The version of `k` that the snapshot sees, and how many entries were looked at: from the newest within the snapshot backwards, to the
// first that has the key.
pub fn search(h: &[u64], installs: u64, base: &[u64], p: Snapshot, k: Key) -> Search
    requires slots { Slots h.now }
    requires base_len { (length base.now ≡ sizes.base) × (k < sizes.keys) }
    ensures { result ≡ search_in (history_of h.now) installs base.now p k }
{
    let visible = within(installs, p);
    for looked in 0..visible {
        let slot = recall_slot(installs, visible - 1 - looked);
        let at = SLOT * slot + SLOT_KEYS;
        if wrote_key_in(h, at, k) {
            return Search {
                value: wrote_value_in(h, at, k),
                looked: looked as u64 + 1,
            };
        }
    }
    Search {
        value: value_at(base, VALUE * k as usize),
        looked: visible as u64,
    }
}

// Whether a remembered install after the snapshot wrote `k`.
pub fn is_newer(h: &[u64], installs: u64, p: Snapshot, k: Key) -> bool
    requires { Slots h.now }
    ensures { result ≡ is_newer (history_of h.now) installs p k }
{
    for i in within(installs, p)..remembered(installs) {
        let slot = recall_slot(installs, i);
        if wrote_key_in(h, SLOT * slot + SLOT_KEYS, k) {
            return true;
        }
    }
    false
}

// The writes of a forgotten entry into the base values.
pub fn forget_into(base: &mut [u64], b: Keys)
    requires base_len { length base.old ≡ sizes.base }
    requires wrote_le_writes { (b.wrote ≤ sizes.writes) × ((i : ℕ) → i < b.wrote → get_or b.writes i 0 < sizes.keys) }
    ensures { base.new ≡ forget_into base.old b }
{
    for i in 0..b.wrote {
        put_value(base, VALUE * b.writes[i] as usize, b.values[i]);
    }
}
