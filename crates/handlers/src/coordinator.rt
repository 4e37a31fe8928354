// Messages to the coordinator: JOINED, CONC, VOTE.
ghost use Rattle.std.specs.Prelude.{◌≡◌, not, [], ◌∷◌, ◌≤◌, length};
ghost use Rattle.laws.specs.Overlay.{overlay};
ghost use Rattle.kinds.specs.Sizes as sizes;
ghost use Rattle.laws.specs.Choice.{every};
ghost use Rattle.rules.specs.Send.{counts_low};
ghost use Rattle.rules.specs.Course.{vote_decides};
ghost use Rattle.rules.specs.Deliver.{joined_in_turn, take_joined, conc_in_turn, vote_in_turn, take_vote};
ghost use Rattle.lent.specs.Lent.{site_of, Replied};
ghost use Rattle.handlers.specs.Held.{Held};

use crate::codes::check_reply;
use kinds::sizes::SITES;
use kinds::stage::{ACTIVE, PREPARED, QUEUED};
use kinds::{Core, Course, MessageHead, Reply};

fn joined_in_turn(c: Course, from: u64) -> bool
    requires { (1 ≤ from) × (from ≤ sizes.sites) }
    ensures { result ≡ joined_in_turn c from }
{
    c.stage == ACTIVE && course::turn::is_outstanding(c, from)
}

pub fn take_joined(
    p: Core,
    live: &mut [u64],
    history: &[u64],
    h: MessageHead,
    place: usize,
) -> Reply
    requires { Held p live.old history.now place h.from }
    ensures { Replied p live.old history.now result live.new history.now
        (take_joined (site_of p live.old history.now) h place) }
{
    let t = shell::arrived(p, live, place, h.from);
    let c = t.sub.course;
    let turn = joined_in_turn(c, h.from);
    if let Err(cause) = check_reply(turn, false) {
        return shell::refused_by(p, cause);
    }
    let d = course::turn::with_heard(c, h.from, h.argument);
    let u = course::turn::with_course(t, d);
    let a = course::turn::quietly(u);
    shell::settled(p, live, place, a)
}

fn vote_in_turn(c: Course, from: u64, vote: u64) -> bool
    requires { (1 ≤ from) × (from ≤ sizes.sites) }
    ensures { result ≡ vote_in_turn c from vote }
{
    let wanted = course::turn::is_outstanding(c, from);
    match c.stage {
        QUEUED => wanted,
        PREPARED => vote != 0 && wanted,
        _ => false,
    }
}

fn vote_decides(own: u64, c: Course, from: u64, vote: u64) -> bool
    requires le_from { (1 ≤ from) × (from ≤ sizes.sites) }
    requires le_own { (1 ≤ own) × (own ≤ sizes.sites) }
    ensures { result ≡ vote_decides own c from vote }
{
    let next = course::turn::with_heard(c, from, 0);
    vote != 0 || live::all_heard(own, next.heard, c.mask)
}

// Whether a message to each other participant is due and cannot be counted.
pub fn all_spent(due: bool, sent: [u64; SITES], mask: u64, own: u64) -> bool
    ensures { result ≡ every (due ∷ not (counts_low sent mask own) ∷ []) }
{
    due && !messages::counts_low(sent, mask, own)
}

pub fn take_vote(
    p: Core,
    live: &mut [u64],
    history: &[u64],
    h: MessageHead,
    place: usize,
    out: &mut [u64],
) -> Reply
    requires held { Held p live.old history.now place h.from }
    requires outgoing_in_bounds { sizes.outgoing ≤ length out.old }
    ensures replied { Replied p live.old history.now result live.new history.now
        (take_vote (site_of p live.old history.now) h place) }
    ensures out_after { out.new
        ≡ overlay out.old (take_vote (site_of p live.old history.now) h place).words }
{
    let first = shell::arrived(p, live, place, h.from);
    let t = course::turn::raise(first, h.clock);
    let c = t.sub.course;
    let own = p.counters.own;
    let turn = vote_in_turn(c, h.from, h.argument);
    let due = vote_decides(own, c, h.from, h.argument);
    let spent = all_spent(due, p.channels.sent, c.mask, own);
    if let Err(cause) = check_reply(turn, spent) {
        return shell::refused_by(p, cause);
    }
    let a = course::coordinator::vote_step(t, h.from, h.argument, out);
    shell::settled(p, live, place, a)
}

pub fn conc_in_turn(c: Course, from: u64) -> bool
    requires { (1 ≤ from) × (from ≤ sizes.sites) }
    ensures { result ≡ conc_in_turn c from }
{
    c.stage == PREPARED && course::turn::is_outstanding(c, from)
}
