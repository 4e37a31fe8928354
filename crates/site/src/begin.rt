// Begin: the site becomes coordinator of a new transaction, for a desk (Q10.1).
ghost use Rattle.std.specs.Prelude.{◌≡◌, List, ℕ, ◌≤◌, ◌<◌, IfOk};
ghost use Rattle.kinds.specs.Refusal.{refusal_in};
ghost use Rattle.kinds.specs.Sizes as sizes;
ghost use Rattle.rules.specs.Effect.{taken_of};
ghost use Rattle.rules.specs.Begin.{next_tx, begun as begunOf, begin_of};
ghost use Rattle.rules.specs.Live.{free_place};
ghost use Rattle.lent.specs.Lent.{site_of, Replied};
ghost use Rattle.site.specs.Accessed.{Unspent, begin_code_at};

use kinds::sizes::LAST_SERIAL;
use kinds::{Answer, Core, Counters, Refusal, Reply, Taken, Turn};

// The free place, if a transaction can begin.
fn check_begin(p: Core, live: &[u64], history: &[u64], desk: u64) -> Result<usize, Refusal>
    ensures code { refusal_in result ≡ begin_code_at (site_of p live.now history.now) desk }
    ensures place { IfOk result (λ i. i ≡ free_place (site_of p live.now history.now).live) }
{
    if !valid::site_ok(p, live, history) || !numbers::is_desk(desk) {
        return Err(Refusal::Malformed);
    }
    let place = live::free_place(p.seats).ok_or(Refusal::Full)?;
    if LAST_SERIAL <= p.counters.serial {
        return Err(Refusal::Spent);
    }
    Ok(place)
}

fn next_tx(c: Counters) -> u64
    requires { (c.own ≤ sizes.sites) × (c.serial < sizes.last_serial) }
    ensures { result ≡ next_tx c }
{
    numbers::tx_of(c.own, c.serial + 1)
}

// The new part, and its serial spent.
fn begun(p: Core, desk: u64) -> Taken
    requires { Unspent p.counters }
    ensures { (w h : List ℕ) → result ≡ taken_of (begunOf (site_of p w h) desk) }
{
    let mut counters = p.counters;
    let tx = next_tx(counters);
    let mask = numbers::mask_of(counters.own);
    let sub = course::turn::new_sub(tx, desk, mask, counters.installs);
    counters.serial += 1;
    Taken {
        answer: Answer::Begun { tx },
        words: 0,
        turn: Turn {
            counters,
            channels: p.channels,
            sub,
        },
    }
}

pub fn begin(p: Core, live: &mut [u64], history: &[u64], desk: u64) -> Reply
    ensures { Replied p live.old history.now result live.new history.now
        (begin_of (site_of p live.old history.now) desk) }
{
    match check_begin(p, live, history, desk) {
        Ok(place) => shell::settled(p, live, place, begun(p, desk)),
        Err(cause) => shell::refused_by(p, cause),
    }
}
