// Enlist: a participant more, and JOIN to it.
ghost use Rattle.std.specs.Prelude.{◌≡◌, ◌≤◌, length, IfOk};
ghost use Rattle.laws.specs.Overlay.{overlay};
ghost use Rattle.kinds.specs.Refusal.{refusal_in};
ghost use Rattle.kinds.specs.Sizes as sizes;
ghost use Rattle.rules.specs.Enlist.{enlist_at, enlist_of};
ghost use Rattle.rules.specs.Live.{place_of};
ghost use Rattle.site.specs.Accessed.{Accessed, Sendable, enlist_code_at, joiner_code_at};
ghost use Rattle.lent.specs.Lent.{site_of, Replied};

use kinds::sizes::OUTGOING;
use kinds::stage::ACTIVE;
use kinds::{Core, Refusal, Reply, Turn};

// The place of the coordinator's part, if it may take a participant more.
fn check_enlist(
    p: Core,
    live: &[u64],
    history: &[u64],
    room: usize,
    tx: u64,
    site: u64,
) -> Result<usize, Refusal>
    ensures code { refusal_in result ≡ enlist_code_at (site_of p live.now history.now) room tx site }
    ensures place { IfOk result (λ i. i ≡ place_of (site_of p live.now history.now).live tx) }
{
    if room < OUTGOING {
        return Err(Refusal::Short);
    }
    let house = tables::lent_house(p.house, live.len(), history.len());
    if !valid::site_ok(p, live, history) || !numbers::is_site(house, site) {
        return Err(Refusal::Malformed);
    }
    let place = live::place_of(p.seats, tx).ok_or(Refusal::Unknown)?;
    if numbers::coordinator_of(tx) != p.counters.own {
        return Err(Refusal::NotCoordinator);
    }
    Ok(place)
}

// Then what the part and the channel to the new participant say.
fn check_joiner(t: Turn, site: u64) -> Result<(), Refusal>
    requires { (1 ≤ site) × (site ≤ sizes.sites) }
    ensures { refusal_in result ≡ joiner_code_at t site }
{
    let course = t.sub.course;
    if course.stage != ACTIVE || site == t.counters.own || numbers::in_mask(course.mask, site) {
        return Err(Refusal::Stage);
    }
    if course::turn::channel_spent(t.channels, site) {
        return Err(Refusal::Spent);
    }
    Ok(())
}

// The part at a place gets a participant more.
fn enlist_at(
    p: Core,
    live: &mut [u64],
    history: &[u64],
    place: usize,
    site: u64,
    out: &mut [u64],
) -> Reply
    requires accessed { Accessed p live.old history.now place }
    requires sendable { Sendable site out.old }
    ensures replied { Replied p live.old history.now result live.new history.now
        (enlist_at (site_of p live.old history.now) place site) }
    ensures out_after { out.new
        ≡ overlay out.old (enlist_at (site_of p live.old history.now) place site).words }
{
    let t = shell::turn_at(p, live, place);
    if let Err(cause) = check_joiner(t, site) {
        return shell::refused_by(p, cause);
    }
    shell::settled(
        p,
        live,
        place,
        course::coordinator::enlist_step(t, site, out),
    )
}

pub fn enlist(
    p: Core,
    live: &mut [u64],
    history: &[u64],
    tx: u64,
    site: u64,
    out: &mut [u64],
) -> Reply
    ensures replied { Replied p live.old history.now result live.new history.now
        (enlist_of (site_of p live.old history.now) (length out.old) tx site) }
    ensures out_after { out.new
        ≡ overlay out.old
        (enlist_of (site_of p live.old history.now) (length out.old) tx site).words }
{
    match check_enlist(p, live, history, out.len(), tx, site) {
        Ok(place) => enlist_at(p, live, history, place, site, out),
        Err(cause) => shell::refused_by(p, cause),
    }
}
