// Causes of refusal that commit and abandon share.
ghost use Rattle.std.specs.Prelude.{◌≡◌, List, ℕ, IfOk};
ghost use Rattle.kinds.specs.Refusal.{refusal_in};
ghost use Rattle.rules.specs.Live.{place_of};
ghost use Rattle.lent.specs.Lent.{site_of};
ghost use Rattle.saves.specs.AtPlace.{request_code_at};

use kinds::sizes::OUTGOING;
use kinds::{Core, Refusal};

// The place of the coordinator's part, if its end can be asked for. `ok` says that what is handed in is possible.
pub fn check_request(p: Core, ok: bool, room: usize, tx: u64) -> Result<usize, Refusal>
    ensures code { (w h : List ℕ) → refusal_in result ≡ request_code_at (site_of p w h) ok room tx }
    ensures place { (w h : List ℕ) → IfOk result (λ i. i ≡ place_of (site_of p w h).live tx) }
{
    if room < OUTGOING {
        return Err(Refusal::Short);
    }
    if !ok {
        return Err(Refusal::Malformed);
    }
    let place = live::place_of(p.seats, tx).ok_or(Refusal::Unknown)?;
    if numbers::coordinator_of(tx) != p.counters.own {
        return Err(Refusal::NotCoordinator);
    }
    Ok(place)
}
