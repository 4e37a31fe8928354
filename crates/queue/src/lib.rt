// The queue: the live parts that voted yes, by (commit number if decided, else mark; coordinator; transaction).

#![tactic(auto)]

ghost use Rattle.std.specs.Prelude.{◌≡◌, List, ℕ, ◌<◌, length, unwrap_or, IfSome};
ghost use Rattle.kinds.specs.Sizes as sizes;
ghost use Rattle.rules.specs.Queue.{comes_first, least_queued, is_installable, state_bound, state_number};
ghost use Rattle.lent.specs.Layout.{live_of};
ghost use Rattle.queue.specs.Asked.{asked};
ghost use Rattle.queue.specs.Best.{IsPlaced, place_of, part_of};

use kinds::Seat;
use kinds::sizes::{LIVE, PLACE};
use kinds::stage::{DECIDED, QUEUED};
use kinds::word::PLACE_NUMBER;
use live::is_queued;
use numbers::precedes;

// The queue's least so far: its place, number and transaction.
#[derive(Clone, Copy)]
struct Least {
    place: usize,
    number: u64,
    tx: u64,
}

// Whether a part of this stage, `number` and `tx` is queued and before the least so far. A transaction's number begins with its
// coordinator, so its order is that of the two.
fn comes_first(stage: u64, number: u64, tx: u64, least: Option<Least>) -> bool
    requires { IsPlaced least }
    ensures { result ≡ comes_first (asked stage number tx) (place_of least) (part_of least) }
{
    is_queued(stage)
        && match least {
            None => true,
            Some(first) => precedes(number, tx, first.number, first.tx),
        }
}

// The place of the queue's least.
pub fn least_queued(seats: [Seat; LIVE], live: &[u64]) -> Option<usize>
    requires { length live.now ≡ sizes.live_words }
    ensures first { unwrap_or result sizes.live ≡ least_queued (live_of seats live.now) sizes.live }
    ensures bound { IfSome result (λ i. i < sizes.live) }
{
    let mut least: Option<Least> = None;
    for place in 0..LIVE {
        let Seat { tx, stage } = seats[place];
        let number = live[PLACE * place + PLACE_NUMBER];
        if comes_first(stage, number, tx, least) {
            least = Some(Least { place, number, tx });
        }
    }
    least.map(|first| first.place)
}

// Whether the part at `place` installs: it is decided.
pub fn is_installable(seats: [Seat; LIVE], place: usize) -> bool
    ensures { (w : List ℕ) → result ≡ is_installable (live_of seats w) place }
{
    place < LIVE && seats[place].stage == DECIDED
}

// The lesser of `n` and the bound of a part of this stage and `number`: an open mark, a decided number less 1.
fn state_bound(stage: u64, number: u64, n: u64) -> u64
    ensures { (tx : ℕ) → result ≡ state_bound (asked stage number tx) n }
{
    match stage {
        QUEUED => n.min(number),
        DECIDED => n.min(number.saturating_sub(1)),
        _ => n,
    }
}

// The least of the clock, the open marks and the decided numbers less 1.
pub fn state_number(seats: [Seat; LIVE], live: &[u64], clock: u64) -> u64
    requires { length live.now ≡ sizes.live_words }
    ensures { result ≡ state_number (live_of seats live.now) clock sizes.live }
{
    let mut least = clock;
    for i in 0..LIVE {
        least = state_bound(seats[i].stage, live[PLACE * i + PLACE_NUMBER], least);
    }
    least
}
