// CONC: a list more, and after the last one the coordinator's vote on their join.
ghost use Rattle.std.specs.Prelude.{◌≡◌, true, ◌+◌, ◌≤◌, length};
ghost use Rattle.laws.specs.Overlay.{overlay};
ghost use Rattle.kinds.specs.Sizes as sizes;
ghost use Rattle.kinds.specs.State.{sub_at};
ghost use Rattle.rules.specs.Effect.{taken_of, turn_at};
ghost use Rattle.rules.specs.Course.{CanSendAll, with_reply};
ghost use Rattle.rules.specs.Live.{all_heard};
ghost use Rattle.rules.specs.Deliver.{gather_change, take_conc};
ghost use Rattle.lent.specs.Lent.{site_of, Replied};
ghost use Rattle.handlers.specs.Cast.{cast_joined};
ghost use Rattle.handlers.specs.Held.{Held, Gathered, Listing};

use crate::codes::check_reply;
use crate::coordinator::{all_spent, conc_in_turn};
use kinds::sizes::{ENTRY, GATHERED};
use kinds::{Core, MessageHead, Reply, Taken, Turn};

// The vote on the join of the n entries gathered at a place.
fn joined_step(
    p: Core,
    live: &[u64],
    history: &[u64],
    place: usize,
    t: Turn,
    n: usize,
    lists: &[u64],
    out: &mut [u64],
) -> Taken
    requires gathered { Gathered p live.now history.now place lists.now × (n ≤ sizes.cert_entries) }
    requires can_send_all { CanSendAll t (length out.old) }
    ensures value { result ≡ taken_of (cast_joined (site_of p live.now history.now) place lists.now n t) }
    ensures out_after { out.new
        ≡ overlay out.old
        (cast_joined (site_of p live.now history.now) place lists.now n t).words }
{
    let at = GATHERED * place;
    let mut list = [0u64; GATHERED];
    let k = join::join(&mut list, &lists[at..], n);
    let e = ENTRY * k;
    let v = certify::vote_of(p, live, history, place, &list[..e], k);
    course::coordinator::cast_step(t, v, &list[..e], out)
}

// The reply is counted; the last one brings the vote.
fn gather_step(
    p: Core,
    live: &[u64],
    history: &[u64],
    h: MessageHead,
    place: usize,
    lists: &[u64],
    out: &mut [u64],
) -> Taken
    requires held { Held p live.now history.now place h.from × (length lists.now ≡ sizes.lists) }
    requires count_bound { (sub_at (site_of p live.now history.now) place).course.listed + h.count ≤ sizes.cert_entries }
    requires can_send_all { (all_heard p.counters.own
        (with_reply (sub_at (site_of p live.now history.now) place).course h.from 0 h.count).heard
        (sub_at (site_of p live.now history.now) place).course.mask ≡ true)
        → CanSendAll (turn_at (site_of p live.now history.now) place) (length out.old) }
    ensures value { result ≡ taken_of (gather_change (site_of p live.now history.now) h place lists.now) }
    ensures out_after { out.new
        ≡ overlay out.old
        (gather_change (site_of p live.now history.now) h place lists.now).words }
{
    let t = shell::arrived(p, live, place, h.from);
    let n = h.count as usize;
    let c = course::turn::with_reply(t.sub.course, h.from, n);
    let u = course::turn::with_course(t, c);
    if !live::all_heard(p.counters.own, c.heard, c.mask) {
        return course::turn::quietly(u);
    }
    joined_step(p, live, history, place, u, c.listed, lists, out)
}

pub fn take_conc(
    p: Core,
    live: &mut [u64],
    history: &[u64],
    h: MessageHead,
    es: &[u64],
    place: usize,
    lists: &mut [u64],
    out: &mut [u64],
) -> Reply
    requires held { Held p live.old history.now place h.from × (length lists.old ≡ sizes.lists) }
    requires listing { Listing h es.now p.counters.own × (sizes.outgoing ≤ length out.old) }
    ensures replied { Replied p live.old history.now result live.new history.now
        (take_conc (site_of p live.old history.now) h es.now lists.old place) }
    ensures lists_after { lists.new
        ≡ (take_conc (site_of p live.old history.now) h es.now lists.old place).lent }
    ensures out_after { out.new
        ≡ overlay out.old
        (take_conc (site_of p live.old history.now) h es.now lists.old place).words }
{
    let part = shell::turn_at(p, live, place);
    let b = part.sub.course;
    let own = p.counters.own;
    let turn = conc_in_turn(b, h.from);
    let next = course::turn::with_heard(b, h.from, 0);
    let due = live::all_heard(own, next.heard, b.mask);
    let spent = all_spent(due, p.channels.sent, b.mask, own);
    if let Err(cause) = check_reply(turn, spent) {
        return shell::refused_by(p, cause);
    }
    let at = GATHERED * place + ENTRY * b.listed;
    slices::copy_words(&mut lists[at..], es);
    let a = gather_step(p, live, history, h, place, lists, out);
    shell::settled(p, live, place, a)
}
