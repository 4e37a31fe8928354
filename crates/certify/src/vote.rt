// A site's vote on a joined list (C37 to C41).
ghost use Rattle.std.specs.Prelude.{◌≡◌, [], ◌∷◌, ◌+◌, ◌*◌, ◌≤◌, ◌<◌, length, eqb};
ghost use Rattle.laws.specs.Choice.{some};
ghost use Rattle.laws.specs.Scan.{any_below};
ghost use Rattle.kinds.specs.Sizes as sizes;
ghost use Rattle.kinds.specs.Word as word;
ghost use Rattle.rules.specs.Keys.{dependent};
ghost use Rattle.rules.specs.Message.{entry_tx, entry_mask};
ghost use Rattle.rules.specs.History.{recall, within as withinOf};
ghost use Rattle.rules.specs.Certify.{vote_of};
ghost use Rattle.lent.specs.Layout.{keys_from, entry_from, history_of};
ghost use Rattle.lent.specs.Lent.{site_of};
ghost use Rattle.certify.specs.Leaves.{unrecorded};
ghost use Rattle.certify.specs.Asks.{KeysIn, Entries, Against, Doubting, Voting, any_conflicts};

use crate::recorded::{is_among, recorded_txs};
use kinds::reason::{CONFLICT, UNCERTAIN};
use kinds::sizes::{ENTRY, HISTORY, LIVE, PLACE, SLOT};
use kinds::word::{
    ENTRY_MARK, ENTRY_MASK, ENTRY_TX, PLACE_KEYS, PLACE_SNAPSHOT, SLOT_KEYS, SLOT_TX,
};
use kinds::{Core, Snapshot};
use tables::keys_at;

// The mark of an entry whose two transactions are dependent at the site that lists it.
const MARKED: u64 = 1;

// Marked, or dependent here: the keys from word `own` of the live words on, and from word `other` of the history on.
fn is_conflict(mark: u64, live: &[u64], own: usize, history: &[u64], other: usize) -> bool
    requires { KeysIn live.now own × KeysIn history.now other }
    ensures { let deps = dependent (keys_from live.now own) (keys_from history.now other) in
        result ≡ some (eqb mark 1 ∷ deps ∷ []) }
{
    mark == MARKED || keys::dependent(keys_at(live, own), keys_at(history, other))
}

// Whether an entry of the list is for the install in the slot, and is marked or dependent here.
fn conflicts_with(
    es: &[u64],
    n: usize,
    live: &[u64],
    own: usize,
    history: &[u64],
    slot: usize,
) -> bool
    requires entries { Entries es.now n }
    requires keys_in { KeysIn live.now own × KeysIn history.now (sizes.slot * slot + word.slot_keys) }
    ensures { let e = entry_from history.now (sizes.slot * slot) in
        result ≡ any_conflicts (keys_from live.now own) es.now n e }
{
    let to = SLOT * slot;
    let tx = history[to + SLOT_TX];
    let other = to + SLOT_KEYS;
    for i in 0..n {
        let at = ENTRY * i;
        if es[at + ENTRY_TX] == tx && is_conflict(es[at + ENTRY_MARK], live, own, history, other) {
            return true;
        }
    }
    false
}

// Whether an entry of the list conflicts with an install within the snapshot.
fn any_conflict(
    es: &[u64],
    n: usize,
    live: &[u64],
    own: usize,
    history: &[u64],
    installs: u64,
    p: Snapshot,
) -> bool
    requires { Against es.now n live.now own history.now }
    ensures { let keys = keys_from live.now own in
        let past = recall (history_of history.now) installs in
        result ≡ any_below (λ k. any_conflicts keys es.now n (past k)) (withinOf installs p) }
{
    let seen = history::within(installs, p);
    for k in 0..seen {
        let slot = history::recall_slot(installs, k);
        if conflicts_with(es, n, live, own, history, slot) {
            return true;
        }
    }
    false
}

// An entry that names this site, of a transaction that is not on record.
fn is_unrecorded(txs: &[u64], m: usize, own: u64, tx: u64, mask: u64) -> bool
    requires m_in_bounds { m ≤ length txs.now }
    requires le_own { (1 ≤ own) × (own ≤ sizes.sites) }
    ensures { result ≡ unrecorded txs.now m own tx mask }
{
    numbers::in_mask(mask, own) && !is_among(txs, m, tx)
}

// Whether an entry of the list names this site, and is not among the first m of those on record.
fn any_unrecorded(es: &[u64], n: usize, txs: &[u64], m: usize, own: u64) -> bool
    requires { Doubting es.now n txs.now m own }
    ensures { let list = es.now in
        result ≡ any_below (λ i. unrecorded txs.now m own (entry_tx list i) (entry_mask list i)) n }
{
    for i in 0..n {
        let at = ENTRY * i;
        let tx = es[at + ENTRY_TX];
        let mask = es[at + ENTRY_MASK];
        if is_unrecorded(txs, m, own, tx, mask) {
            return true;
        }
    }
    false
}

// The vote of the part at `place` on n entries: 0 is yes.
// Stays: the rules' `vote_of` is a number, and the contracts of `course` and of the calls name it.
pub fn vote_of(p: Core, live: &[u64], history: &[u64], place: usize, es: &[u64], n: usize) -> u64
    requires { Voting (site_of p live.now history.now) place es.now n }
    ensures { result ≡ vote_of (site_of p live.now history.now) place es.now n }
{
    let installs = p.counters.installs;
    let own = p.counters.own;
    let seats = p.seats;
    let at = PLACE * place;
    let keys = at + PLACE_KEYS;
    let snapshot = Snapshot {
        installs: live[at + PLACE_SNAPSHOT],
    };
    if any_conflict(es, n, live, keys, history, installs, snapshot) {
        return CONFLICT;
    }
    if history::forgotten(installs) == 0 {
        return 0;
    }
    let mut txs: [u64; LIVE + HISTORY] = [0; LIVE + HISTORY];
    let m = recorded_txs(&mut txs, seats, history, installs);
    if any_unrecorded(es, n, &txs, m, own) {
        return UNCERTAIN;
    }
    0
}
