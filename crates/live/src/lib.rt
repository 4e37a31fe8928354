// The live table: sixteen places. A scan asks their seats; the other words of a part are read in place.

#![tactic(auto)]

ghost use Rattle.std.specs.Prelude.{◌≡◌, true, List, ℕ, ◌+◌, ◌*◌, ◌≤◌, ◌<◌, leb, eqb, length, unwrap_or, IfSome};
ghost use Rattle.laws.specs.Choice.{pick};
ghost use Rattle.kinds.specs.Sizes as sizes;
ghost use Rattle.kinds.specs.Stage as stages;
ghost use Rattle.kinds.specs.Word as word;
ghost use Rattle.rules.specs.Live.{part_at, free_place, place_of, other_holds, key_held, all_heard};
ghost use Rattle.lent.specs.Layout.{keys_from, sub_from, live_of};
ghost use Rattle.lent.specs.Seats.{free_in, is_seat_of, place_in};

use keys::wrote_key_in;
use kinds::sizes::{LIVE, PLACE};
use kinds::stage::{DECIDED, FREE, PREPARED, QUEUED};
use kinds::word::PLACE_KEYS;
use kinds::{Key, Seat};
use numbers::{participants, replies_wanted};

// The first free place of lent seats.
pub fn free_in(seats: &[Seat]) -> Option<usize>
    ensures first { unwrap_or result (length seats.now) ≡ free_in seats.now }
    ensures bound { IfSome result (λ i. i < length seats.now) }
{
    seats.iter().position(|seat| seat.stage == FREE)
}

// The first free place.
pub fn free_place(seats: [Seat; LIVE]) -> Option<usize>
    ensures first { (w : List ℕ) → unwrap_or result sizes.live ≡ free_place (live_of seats w) }
    ensures bound { IfSome result (λ i. i < sizes.live) }
{
    free_in(&seats)
}

// The place of the part of `tx` among lent seats.
pub fn place_in(seats: &[Seat], tx: u64) -> Option<usize>
    ensures first { unwrap_or result (length seats.now) ≡ place_in seats.now tx }
    ensures bound { IfSome result (λ i. i < length seats.now) }
{
    seats.iter().position(|seat| is_seat_of(*seat, tx))
}

// The place of the part of `tx`, where it is held here.
pub fn place_of(seats: [Seat; LIVE], tx: u64) -> Option<usize>
    ensures first { (w : List ℕ) → unwrap_or result sizes.live ≡ place_of (live_of seats w) tx }
    ensures bound { IfSome result (λ i. i < sizes.live) }
{
    place_in(&seats, tx)
}

// Whether a place holds a part of `tx`.
fn is_seat_of(a: Seat, tx: u64) -> bool
    ensures { result ≡ is_seat_of a tx }
{
    a.stage != FREE && a.tx == tx
}

// Whether the part at place `i`, which is not `place`, holds `k`. Its seat tells whether there is one, and its words what it wrote.
fn other_holds(a: Seat, live: &[u64], place: usize, k: Key, i: usize) -> bool
    requires place_in_bounds { sizes.place * i + sizes.place ≤ length live.now }
    requires place_keys_bound { (keys_from live.now (sizes.place * i + word.place_keys)).wrote ≤ sizes.writes }
    ensures { result ≡ other_holds place k i (sub_from a live.now (sizes.place * i)) }
{
    i != place && a.stage != FREE && wrote_key_in(live, PLACE * i + PLACE_KEYS, k)
}

// Whether `k` is held by another part than that at `place`.
pub fn key_held(seats: [Seat; LIVE], live: &[u64], place: usize, k: Key) -> bool
    requires live_len { length live.now ≡ sizes.live_words }
    requires by_index { (i : ℕ) → i < sizes.live → (part_at (live_of seats live.now) i).keys.wrote ≤ sizes.writes }
    ensures { result ≡ key_held (live_of seats live.now) place k }
{
    for i in 0..LIVE {
        if other_holds(seats[i], live, place, k, i) {
            return true;
        }
    }
    false
}

// PREPARE taken, or the commit requested, and neither installed nor aborted.
pub fn is_prepared(stage: u64) -> bool
    ensures { result ≡ leb stages.prepared stage }
{
    PREPARED <= stage
}

// In the queue, open or decided.
pub fn is_queued(stage: u64) -> bool
    ensures { result ≡ pick (eqb stage stages.queued) true (eqb stage stages.decided) }
{
    stage == QUEUED || stage == DECIDED
}

// Whether every other participant has replied in this round: only replies of participants count.
pub fn all_heard(own: u64, heard: u64, mask: u64) -> bool
    requires { (1 ≤ own) × (own ≤ sizes.sites) }
    ensures { result ≡ all_heard own heard mask }
{
    participants(heard & mask) == replies_wanted(own, mask)
}
