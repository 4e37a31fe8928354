// The transactions that a site has on record, live or remembered, gathered once for a scan by each entry of a list.
ghost use Rattle.std.specs.Prelude.{◌≡◌, true, List, [], ◌∷◌, ℕ, ◌+◌, ◌≤◌, ◌<◌, length, ltb};
ghost use Rattle.laws.specs.Choice.{pick, some};
ghost use Rattle.laws.specs.Scan.{any_below};
ghost use Rattle.kinds.specs.Sizes as sizes;
ghost use Rattle.rules.specs.Live.{is_held};
ghost use Rattle.rules.specs.History.{recall_place, remembered as rememberedOf};
ghost use Rattle.lent.specs.Layout.{live_of, history_of};
ghost use Rattle.lent.specs.Seats.{seat_at, is_seat_of};
ghost use Rattle.certify.specs.Leaves.{among, any_recalled};
ghost use Rattle.certify.specs.Asks.{Gathering};

use kinds::Seat;
use kinds::sizes::{LIVE, SLOT};
use kinds::stage::FREE;
use kinds::word::SLOT_TX;

// Whether `tx` is among the first `n`.
pub fn is_among(txs: &[u64], n: usize, tx: u64) -> bool
    requires { n ≤ length txs.now }
    ensures { result ≡ among txs.now n tx }
{
    txs[..n].contains(&tx)
}

// Puts the transaction of a seat behind the first `n`, and returns how many there are then.
// Stays: the transactions gathered are a slice with their count beside it: no heap, fixed memory.
fn with_held(txs: &mut [u64], n: usize, a: Seat) -> usize
    requires { n < length txs.old }
    ensures upper_bound { result ≤ n + 1 }
    ensures by_index { (tx : ℕ) → among txs.new result tx ≡ pick (is_seat_of a tx) true (among txs.old n tx) }
{
    if a.stage == FREE {
        return n;
    }
    txs[n] = a.tx;
    n + 1
}

// Gathers the live ones, and returns how many.
fn held_txs(txs: &mut [u64], seats: [Seat; LIVE]) -> usize
    requires { sizes.live ≤ length txs.old }
    ensures upper_bound { result ≤ sizes.live }
    ensures by_index { (tx : ℕ) → among txs.new result tx ≡ any_below (λ i. is_seat_of (seat_at seats i) tx) sizes.live }
{
    let mut n: usize = 0;
    for a in &seats {
        n = with_held(txs, n, *a);
    }
    n
}

// Puts the remembered ones behind the first `n`, and returns how many there are then.
fn remembered_txs(txs: &mut [u64], n: usize, history: &[u64], installs: u64) -> usize
    requires { (n ≤ sizes.live) × Gathering txs.old history.now }
    ensures upper_bound { result ≤ sizes.live + sizes.history }
    ensures by_index { (tx : ℕ) → (let past = any_recalled (history_of history.now) installs tx (rememberedOf installs) in
        among txs.new result tx ≡ pick (among txs.old n tx) true past) }
{
    let m = history::remembered(installs);
    for i in 0..m {
        let slot = history::recall_slot(installs, i);
        txs[n + i] = history[SLOT * slot + SLOT_TX];
    }
    n + m
}

// Gathers all on record, and returns how many. Which are live, the seats tell, whatever the other words of their parts are.
pub fn recorded_txs(txs: &mut [u64], seats: [Seat; LIVE], history: &[u64], installs: u64) -> usize
    requires { Gathering txs.old history.now }
    ensures upper_bound { result ≤ sizes.live + sizes.history }
    ensures by_index { (w : List ℕ) (tx : ℕ) → (let past = recall_place (history_of history.now) installs tx in
        among txs.new result tx ≡ some (is_held (live_of seats w) tx ∷ ltb past (rememberedOf installs) ∷ [])) }
{
    let n = held_txs(txs, seats);
    remembered_txs(txs, n, history, installs)
}
