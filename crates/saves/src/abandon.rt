// Abandon: an abort before the decision.
ghost use Rattle.std.specs.Prelude.{◌≡◌, ◌≤◌, length};
ghost use Rattle.kinds.specs.Sizes as sizes;
ghost use Rattle.laws.specs.Overlay.{overlay};
ghost use Rattle.kinds.specs.Refusal.{refusal_in};
ghost use Rattle.rules.specs.Commit.{abandon_of};
ghost use Rattle.lent.specs.Lent.{site_of, Replied};
ghost use Rattle.saves.specs.AtPlace.{abandon_at, abandon_code_at};
ghost use Rattle.saves.specs.Own.{Placed};

use crate::codes::check_request;
use kinds::reason::ABANDONED;
use kinds::stage::DECIDED;
use kinds::{Core, Refusal, Reply, Turn};

// The first cause against the abandon of a part.
fn check_abandon(t: Turn) -> Result<(), Refusal>
    ensures { refusal_in result ≡ abandon_code_at t }
{
    let course = t.sub.course;
    if course.stage == DECIDED {
        return Err(Refusal::Stage);
    }
    if !messages::counts_low(t.channels.sent, course.mask, t.counters.own) {
        return Err(Refusal::Spent);
    }
    Ok(())
}

// The part at a place is aborted, unless it is decided.
fn abandon_at(p: Core, live: &mut [u64], history: &[u64], place: usize, out: &mut [u64]) -> Reply
    requires { Placed p live.old history.now place × (sizes.outgoing ≤ length out.old) }
    ensures replied { Replied p live.old history.now result live.new history.now
        (abandon_at (site_of p live.old history.now) place) }
    ensures out_after { out.new
        ≡ overlay out.old (abandon_at (site_of p live.old history.now) place).words }
{
    let t = shell::turn_at(p, live, place);
    if let Err(cause) = check_abandon(t) {
        return shell::refused_by(p, cause);
    }
    let a = course::coordinator::abort_step(t, ABANDONED, out);
    shell::settled(p, live, place, a)
}

pub fn abandon(p: Core, live: &mut [u64], history: &[u64], tx: u64, out: &mut [u64]) -> Reply
    ensures replied { Replied p live.old history.now result live.new history.now
        (abandon_of (site_of p live.old history.now) (length out.old) tx) }
    ensures out_after { out.new
        ≡ overlay out.old
        (abandon_of (site_of p live.old history.now) (length out.old) tx).words }
{
    let ok = valid::site_ok(p, live, history);
    match check_request(p, ok, out.len(), tx) {
        Ok(place) => abandon_at(p, live, history, place, out),
        Err(cause) => shell::refused_by(p, cause),
    }
}
