// Messages to a participant: JOIN, PREPARE, CERT, COMMIT, ABORT.
ghost use Rattle.std.specs.Prelude.{◌≡◌, true, ◌*◌, ◌≤◌, ◌<◌, length};
ghost use Rattle.laws.specs.Overlay.{overlay};
ghost use Rattle.kinds.specs.Sizes as sizes;
ghost use Rattle.rules.specs.Valid.{site_ok};
ghost use Rattle.rules.specs.History.{is_forgotten};
ghost use Rattle.rules.specs.Certify.{concurrent};
ghost use Rattle.rules.specs.Effect.{taken_of};
ghost use Rattle.rules.specs.Course.{CanSendTo, prepared_step};
ghost use Rattle.rules.specs.Deliver.{take_join, take_prepare, pass_prepare, take_cert, take_commit, take_abort};
ghost use Rattle.lent.specs.Lent.{site_of, Replied};
ghost use Rattle.handlers.specs.Held.{Held, Reached, place_number};

use crate::codes::check_reply;
use kinds::desk::HOUSE;
use kinds::kind::{JOINED, VOTE};
use kinds::reason::{FULL, UNKNOWN};
use kinds::sizes::{ENTRY, HISTORY, LIVE};
use kinds::stage::{ACTIVE, DECIDED, PREPARED, QUEUED};
use kinds::{Core, MessageHead, Reply, Taken, Turn};

// The words of a site's own list: all other live and all remembered.
const LIST: usize = ENTRY * (LIVE + HISTORY);

// The part that JOIN begins keeps the desk that JOIN says (Q10.3).
pub fn take_join(
    p: Core,
    live: &mut [u64],
    history: &[u64],
    h: MessageHead,
    place: Option<usize>,
    out: &mut [u64],
) -> Reply
    requires { Reached p live.old history.now h.from × (sizes.outgoing ≤ length out.old) }
    ensures replied { Replied p live.old history.now result live.new history.now
        (take_join (site_of p live.old history.now) h (place_number place)) }
    ensures out_after { out.new
        ≡ overlay out.old (take_join (site_of p live.old history.now) h (place_number place)).words }
{
    let spent = course::turn::channel_spent(p.channels, h.from);
    if let Err(cause) = check_reply(LIVE <= place.unwrap_or(LIVE), spent) {
        return shell::refused_by(p, cause);
    }
    let t = shell::join_turn(p, h, h.argument);
    match live::free_place(p.seats) {
        None => {
            let a = course::send::send_to(t, JOINED, h.from, 0, FULL, &[], out);
            shell::spoken(p, a)
        }
        Some(free) => {
            let a = course::send::send_to(t, JOINED, h.from, 0, 0, &[], out);
            shell::settled(p, live, free, a)
        }
    }
}

// Its list, or a vote of 19.
fn prepare_taken(
    p: Core,
    live: &[u64],
    history: &[u64],
    h: MessageHead,
    place: usize,
    t: Turn,
    out: &mut [u64],
) -> Taken
    requires history_value { (site_ok (site_of p live.now history.now) ≡ true) × (place < sizes.live) }
    requires can_send_to { CanSendTo t h.from (length out.old) }
    ensures value { result
        ≡ taken_of (prepared_step t h.from h.argument (is_forgotten p.counters.installs t.sub.snapshot)
        (concurrent (site_of p live.now history.now) place)) }
    ensures out_after { out.new
        ≡ overlay out.old
        (prepared_step t h.from h.argument (is_forgotten p.counters.installs t.sub.snapshot)
        (concurrent (site_of p live.now history.now) place)).words }
{
    let lost = history::is_forgotten(p.counters.installs, t.sub.snapshot);
    let mut list = [0u64; LIST];
    let n = certify::concurrent(&mut list, p, live, history, place);
    let e = ENTRY * n;
    course::participant::prepared_step(t, h.from, h.argument, lost, &list[..e], out)
}

pub fn take_prepare(
    p: Core,
    live: &mut [u64],
    history: &[u64],
    h: MessageHead,
    place: usize,
    out: &mut [u64],
) -> Reply
    requires { Held p live.old history.now place h.from × (sizes.outgoing ≤ length out.old) }
    ensures replied { Replied p live.old history.now result live.new history.now
        (take_prepare (site_of p live.old history.now) h place) }
    ensures out_after { out.new
        ≡ overlay out.old (take_prepare (site_of p live.old history.now) h place).words }
{
    let first = shell::arrived(p, live, place, h.from);
    let t = course::turn::raise(first, h.clock);
    let spent = course::turn::channel_spent(p.channels, h.from);
    if let Err(cause) = check_reply(t.sub.course.stage == ACTIVE, spent) {
        return shell::refused_by(p, cause);
    }
    let a = prepare_taken(p, live, history, h, place, t, out);
    shell::settled(p, live, place, a)
}

// PREPARE of a transaction that is not held raises the clock and is voted 5.
pub fn pass_prepare(
    p: Core,
    live: &[u64],
    history: &[u64],
    h: MessageHead,
    out: &mut [u64],
) -> Reply
    requires { Reached p live.now history.now h.from × (sizes.outgoing ≤ length out.old) }
    ensures replied { Replied p live.now history.now result live.now history.now
        (pass_prepare (site_of p live.now history.now) h) }
    ensures out_after { out.new
        ≡ overlay out.old (pass_prepare (site_of p live.now history.now) h).words }
{
    let spent = course::turn::channel_spent(p.channels, h.from);
    if let Err(cause) = check_reply(true, spent) {
        return shell::refused_by(p, cause);
    }
    let first = shell::join_turn(p, h, HOUSE);
    let t = course::turn::raise(first, h.clock);
    let clock = t.counters.clock;
    let a = course::send::send_to(t, VOTE, h.from, clock, UNKNOWN, &[], out);
    shell::spoken(p, a)
}

pub fn take_cert(
    p: Core,
    live: &mut [u64],
    history: &[u64],
    h: MessageHead,
    es: &[u64],
    place: usize,
    out: &mut [u64],
) -> Reply
    requires held { Held p live.old history.now place h.from × (sizes.outgoing ≤ length out.old) }
    requires count_le_cert_entries { (h.count ≤ sizes.cert_entries) × (sizes.entry * h.count ≤ length es.now) }
    ensures replied { Replied p live.old history.now result live.new history.now
        (take_cert (site_of p live.old history.now) h es.now place) }
    ensures out_after { out.new
        ≡ overlay out.old (take_cert (site_of p live.old history.now) h es.now place).words }
{
    let t = shell::arrived(p, live, place, h.from);
    let spent = course::turn::channel_spent(p.channels, h.from);
    if let Err(cause) = check_reply(t.sub.course.stage == PREPARED, spent) {
        return shell::refused_by(p, cause);
    }
    let n = h.count as usize;
    let v = certify::vote_of(p, live, history, place, es, n);
    let a = course::participant::certified_step(t, h.from, v, out);
    shell::settled(p, live, place, a)
}

pub fn take_commit(
    p: Core,
    live: &mut [u64],
    history: &[u64],
    h: MessageHead,
    place: usize,
) -> Reply
    requires { Held p live.old history.now place h.from }
    ensures { Replied p live.old history.now result live.new history.now
        (take_commit (site_of p live.old history.now) h place) }
{
    let first = shell::arrived(p, live, place, h.from);
    let t = course::turn::raise(first, h.clock);
    let c = t.sub.course;
    if let Err(cause) = check_reply(c.stage == QUEUED, false) {
        return shell::refused_by(p, cause);
    }
    let d = course::turn::with_decision(c, h.clock);
    let u = course::turn::with_course(t, d);
    let a = course::turn::quietly(u);
    shell::settled(p, live, place, a)
}

pub fn take_abort(p: Core, live: &mut [u64], history: &[u64], h: MessageHead, place: usize) -> Reply
    requires { Held p live.old history.now place h.from }
    ensures { Replied p live.old history.now result live.new history.now
        (take_abort (site_of p live.old history.now) h place) }
{
    let t = shell::arrived(p, live, place, h.from);
    if let Err(cause) = check_reply(t.sub.course.stage != DECIDED, false) {
        return shell::refused_by(p, cause);
    }
    let free = course::turn::no_sub();
    let u = course::turn::with_sub(t, free);
    let a = course::turn::quietly(u);
    shell::settled(p, live, place, a)
}
