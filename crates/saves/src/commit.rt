// The commit request.
ghost use Rattle.std.specs.Prelude.{◌≡◌, ◌*◌, ◌≤◌, length};
ghost use Rattle.laws.specs.Overlay.{overlay, put_at};
ghost use Rattle.kinds.specs.Sizes as sizes;
ghost use Rattle.rules.specs.Message.{entry_count};
ghost use Rattle.rules.specs.Effect.{taken_of, turn_at};
ghost use Rattle.rules.specs.Join.{joined};
ghost use Rattle.rules.specs.Certify.{concurrent, vote_of};
ghost use Rattle.rules.specs.Course.{CanSendAll, cast_step};
ghost use Rattle.kinds.specs.Refusal.{refusal_in};
ghost use Rattle.rules.specs.Commit.{request_change, commit_change, commit_lists, commit_of};
ghost use Rattle.lent.specs.Lent.{site_of, Replied};
ghost use Rattle.saves.specs.AtPlace.{commit_at, commit_code_at};
ghost use Rattle.saves.specs.Own.{Own, Placed};

use crate::codes::check_request;
use kinds::reason::{FULL, UNCERTAIN};
use kinds::sizes::{ENTRY, GATHERED, HISTORY, LIVE};
use kinds::stage::ACTIVE;
use kinds::{Core, Refusal, Reply, Taken, Turn};

// The words of a site's own list: all other live and all remembered.
const LIST: usize = ENTRY * (LIVE + HISTORY);

// The first cause against the commit request of a part.
fn check_commit(t: Turn) -> Result<(), Refusal>
    requires { (1 ≤ t.counters.own) × (t.counters.own ≤ sizes.sites) }
    ensures { refusal_in result ≡ commit_code_at t }
{
    let course = t.sub.course;
    let own = t.counters.own;
    if course.stage != ACTIVE {
        return Err(Refusal::Stage);
    }
    if !live::all_heard(own, course.heard, course.mask) {
        return Err(Refusal::Outstanding);
    }
    if !messages::counts_low(t.channels.sent, course.mask, own) {
        return Err(Refusal::Spent);
    }
    Ok(())
}

// Votes on the own list at once: a lone participant's course.
fn lone_step(
    p: Core,
    live: &[u64],
    history: &[u64],
    place: usize,
    t: Turn,
    own: &[u64],
    n: usize,
    out: &mut [u64],
) -> Taken
    requires own { Own p live.now history.now place own.now n }
    requires can_send_all { CanSendAll t (length out.old) }
    ensures value { result
        ≡ taken_of (cast_step t
        (vote_of (site_of p live.now history.now) place (joined own.now n)
        (entry_count (joined own.now n))) (joined own.now n)) }
    ensures out_after { out.new
        ≡ overlay out.old
        (cast_step t
        (vote_of (site_of p live.now history.now) place (joined own.now n)
        (entry_count (joined own.now n))) (joined own.now n)).words }
{
    let mut list = [0u64; LIST];
    let k = join::join(&mut list, own, n);
    let e = ENTRY * k;
    let v = certify::vote_of(p, live, history, place, &list[..e], k);
    course::coordinator::cast_step(t, v, &list[..e], out)
}

// The own list is made: PREPARE goes out, or a lone participant votes.
fn request_step(
    p: Core,
    live: &[u64],
    history: &[u64],
    place: usize,
    own: &[u64],
    n: usize,
    out: &mut [u64],
) -> Taken
    requires own { Own p live.now history.now place own.now n }
    requires can_send_all { CanSendAll (turn_at (site_of p live.now history.now) place) (length out.old) }
    ensures value { result ≡ taken_of (request_change (site_of p live.now history.now) place own.now) }
    ensures out_after { out.new
        ≡ overlay out.old
        (request_change (site_of p live.now history.now) place own.now).words }
{
    let t = shell::turn_at(p, live, place);
    let c = course::turn::with_request(t.sub.course, n);
    let u = course::turn::with_course(t, c);
    if live::all_heard(p.counters.own, 0, c.mask) {
        return lone_step(p, live, history, place, u, own, n, out);
    }
    course::coordinator::prepare_step(u, out)
}

// The own list is made and kept among the gathered ones, and the request goes on with it.
fn list_step(
    p: Core,
    live: &[u64],
    history: &[u64],
    place: usize,
    lists: &mut [u64],
    out: &mut [u64],
) -> Taken
    requires placed { Placed p live.now history.now place × (length lists.old ≡ sizes.lists) }
    requires can_send_all { CanSendAll (turn_at (site_of p live.now history.now) place) (length out.old) }
    ensures result_value { let s = site_of p live.now history.now in
        result ≡ taken_of (request_change s place (concurrent s place)) }
    ensures lists_after { lists.new
        ≡ put_at (sizes.gathered * place) lists.old (concurrent (site_of p live.now history.now) place) }
    ensures out_after { let s = site_of p live.now history.now in
        out.new ≡ overlay out.old (request_change s place (concurrent s place)).words }
{
    let mut own = [0u64; LIST];
    let n = certify::concurrent(&mut own, p, live, history, place);
    let e = ENTRY * n;
    let at = GATHERED * place;
    slices::copy_words(&mut lists[at..], &own[..e]);
    request_step(p, live, history, place, &own[..e], n, out)
}

// What an accepted request does: it aborts 12, or 19, or makes its list.
fn commit_step(
    p: Core,
    live: &[u64],
    history: &[u64],
    place: usize,
    lists: &mut [u64],
    out: &mut [u64],
) -> Taken
    requires placed { Placed p live.now history.now place × (length lists.old ≡ sizes.lists) }
    requires can_send_all { CanSendAll (turn_at (site_of p live.now history.now) place) (length out.old) }
    ensures value { result ≡ taken_of (commit_change (site_of p live.now history.now) place) }
    ensures lists_after { lists.new ≡ commit_lists (site_of p live.now history.now) lists.old place }
    ensures out_after { out.new
        ≡ overlay out.old (commit_change (site_of p live.now history.now) place).words }
{
    let t = shell::turn_at(p, live, place);
    // Stays: no heap, fixed memory: a part's reason is a word of the lent table, 0 where there is none.
    if t.sub.course.reason != 0 {
        return course::coordinator::abort_step(t, FULL, out);
    }
    if history::is_forgotten(t.counters.installs, t.sub.snapshot) {
        return course::coordinator::abort_step(t, UNCERTAIN, out);
    }
    list_step(p, live, history, place, lists, out)
}

// The commit request of the part at a place.
fn commit_at(
    p: Core,
    live: &mut [u64],
    history: &[u64],
    place: usize,
    lists: &mut [u64],
    out: &mut [u64],
) -> Reply
    requires placed { Placed p live.old history.now place }
    requires lists_len { (length lists.old ≡ sizes.lists) × (sizes.outgoing ≤ length out.old) }
    ensures replied { Replied p live.old history.now result live.new history.now
        (commit_at (site_of p live.old history.now) lists.old place) }
    ensures lists_after { lists.new ≡ (commit_at (site_of p live.old history.now) lists.old place).lent }
    ensures out_after { out.new
        ≡ overlay out.old (commit_at (site_of p live.old history.now) lists.old place).words }
{
    let t = shell::turn_at(p, live, place);
    if let Err(cause) = check_commit(t) {
        return shell::refused_by(p, cause);
    }
    let a = commit_step(p, live, history, place, lists, out);
    shell::settled(p, live, place, a)
}

pub fn commit(
    p: Core,
    live: &mut [u64],
    history: &[u64],
    tx: u64,
    lists: &mut [u64],
    out: &mut [u64],
) -> Reply
    ensures replied { Replied p live.old history.now result live.new history.now
        (commit_of (site_of p live.old history.now) (length out.old) lists.old tx) }
    ensures lists_after { lists.new
        ≡ (commit_of (site_of p live.old history.now) (length out.old) lists.old tx).lent }
    ensures out_after { out.new
        ≡ overlay out.old
        (commit_of (site_of p live.old history.now) (length out.old) lists.old tx).words }
{
    let ok = valid::handed_ok(p, live, history, lists);
    match check_request(p, ok, out.len(), tx) {
        Ok(place) => commit_at(p, live, history, place, lists, out),
        Err(cause) => shell::refused_by(p, cause),
    }
}
