// The coordinator's steps.
ghost use Rattle.std.specs.Prelude.{◌≡◌, true, ◌+◌, ◌≤◌, ◌<◌, length};
ghost use Rattle.laws.specs.Overlay.{overlay};
ghost use Rattle.kinds.specs.Sizes as sizes;
ghost use Rattle.rules.specs.Effect.{taken_of};
ghost use Rattle.rules.specs.Course.{enlist_step, abort_step, commit_step, decide_step, cast_step, prepare_step, vote_decides, vote_step};
ghost use Rattle.rules.specs.Course.{Entries, CanSendTo, CanSendAll};

use crate::send::{send_all, send_to};
use crate::turn::{
    no_sub, quietly, with_course, with_decision, with_heard, with_participant, with_queue_mark,
    with_sub,
};
use kinds::kind::{ABORT, CERT, COMMIT, JOIN, PREPARE};
use kinds::reason::SPENT;
use kinds::sizes::LAST;
use kinds::{Answer, Taken, Turn};

// A participant more, and JOIN to it, which says the part's desk (Q10.3).
pub fn enlist_step(t: Turn, site: u64, out: &mut [u64]) -> Taken
    requires { CanSendTo t site (length out.old) }
    ensures value { result ≡ taken_of (enlist_step t site) }
    ensures out_after { out.new ≡ overlay out.old (enlist_step t site).words }
{
    let c = with_participant(t.sub.course, site);
    let u = with_course(t, c);
    send_to(u, JOIN, site, 0, t.sub.desk, &[], out)
}

// ABORT to the others; the part is gone.
pub fn abort_step(t: Turn, reason: u64, out: &mut [u64]) -> Taken
    requires { CanSendAll t (length out.old) }
    ensures value { result ≡ taken_of (abort_step t reason) }
    ensures out_after { out.new ≡ overlay out.old (abort_step t reason).words }
{
    let a = send_all(t, Answer::Aborted { reason }, ABORT, 0, 0, &[], out);
    Taken {
        turn: with_sub(a.turn, no_sub()),
        ..a
    }
}

// COMMIT with its number to the others.
fn commit_step(t: Turn, number: u64, out: &mut [u64]) -> Taken
    requires { CanSendAll t (length out.old) }
    ensures value { result ≡ taken_of (commit_step t number) }
    ensures out_after { out.new ≡ overlay out.old (commit_step t number).words }
{
    let c = with_decision(t.sub.course, number);
    let mut u = with_course(t, c);
    u.counters.clock = number;
    send_all(u, Answer::Committed { number }, COMMIT, number, 0, &[], out)
}

// All have voted yes.
pub fn decide_step(t: Turn, out: &mut [u64]) -> Taken
    requires { CanSendAll t (length out.old) }
    ensures value { result ≡ taken_of (decide_step t) }
    ensures out_after { out.new ≡ overlay out.old (decide_step t).words }
{
    let clock = t.counters.clock;
    if LAST <= clock {
        return abort_step(t, SPENT, out);
    }
    commit_step(t, clock + 1, out)
}

// A yes on the join: CERT carries it, and a lone participant has all votes.
fn cast_yes(t: Turn, es: &[u64], out: &mut [u64]) -> Taken
    requires { CanSendAll t (length out.old) × Entries es.now }
    ensures value { result ≡ taken_of (cast_step t 0 es.now) }
    ensures out_after { out.new ≡ overlay out.old (cast_step t 0 es.now).words }
{
    let c = with_queue_mark(t.sub.course, t.counters.clock);
    let u = with_course(t, c);
    if live::all_heard(t.counters.own, 0, t.sub.course.mask) {
        return decide_step(u, out);
    }
    send_all(u, Answer::Done, CERT, 0, 0, es, out)
}

// All lists are here: the coordinator's vote on their join.
// Stays: a vote and a reason are numbers, 0 for yes, as the contracts of `cast_step` and `vote_step` have them.
pub fn cast_step(t: Turn, vote: u64, es: &[u64], out: &mut [u64]) -> Taken
    requires { CanSendAll t (length out.old) × Entries es.now }
    ensures value { result ≡ taken_of (cast_step t vote es.now) }
    ensures out_after { out.new ≡ overlay out.old (cast_step t vote es.now).words }
{
    if vote == 0 {
        return cast_yes(t, es, out);
    }
    abort_step(t, vote, out)
}

// PREPARE to the others.
pub fn prepare_step(t: Turn, out: &mut [u64]) -> Taken
    requires { CanSendAll t (length out.old) }
    ensures value { result ≡ taken_of (prepare_step t) }
    ensures out_after { out.new ≡ overlay out.old (prepare_step t).words }
{
    let clock = t.counters.clock;
    let mask = t.sub.course.mask;
    send_all(t, Answer::Done, PREPARE, clock, mask, &[], out)
}

// A VOTE taken: the first no aborts, the last yes decides.
pub fn vote_step(t: Turn, site: u64, vote: u64, out: &mut [u64]) -> Taken
    requires can_send_all { (vote_decides t.counters.own t.sub.course site vote ≡ true) → CanSendAll t (length out.old) }
    requires le_site { ((1 ≤ site) × (site ≤ sizes.sites)) × ((1 ≤ t.counters.own) × (t.counters.own ≤ sizes.sites)) }
    ensures value { result ≡ taken_of (vote_step t site vote) }
    ensures out_after { out.new ≡ overlay out.old (vote_step t site vote).words }
{
    if vote != 0 {
        return abort_step(t, vote, out);
    }
    let c = with_heard(t.sub.course, site, 0);
    let u = with_course(t, c);
    if live::all_heard(t.counters.own, c.heard, c.mask) {
        return decide_step(u, out);
    }
    quietly(u)
}
