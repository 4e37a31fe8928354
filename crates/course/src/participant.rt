// A participant's steps.
ghost use Rattle.std.specs.Prelude.{◌≡◌, length};
ghost use Rattle.laws.specs.Overlay.{overlay};
ghost use Rattle.rules.specs.Effect.{taken_of};
ghost use Rattle.rules.specs.Course.{prepared_step, certified_step, Entries, CanSendTo};

use crate::send::send_to;
use crate::turn::{with_course, with_queue_mark, with_stage};
use kinds::kind::{CONC, VOTE};
use kinds::reason::UNCERTAIN;
use kinds::stage::{PREPARED, REJECTED};
use kinds::{Taken, Turn};

// PREPARE taken: its list, or a vote of 19 where an install after the snapshot is forgotten.
pub fn prepared_step(t: Turn, to: u64, mask: u64, lost: bool, es: &[u64], out: &mut [u64]) -> Taken
    requires { CanSendTo t to (length out.old) × Entries es.now }
    ensures value { result ≡ taken_of (prepared_step t to mask lost es.now) }
    ensures out_after { out.new ≡ overlay out.old (prepared_step t to mask lost es.now).words }
{
    if lost {
        let clock = t.counters.clock;
        let c = with_stage(t.sub.course, mask, REJECTED);
        let u = with_course(t, c);
        return send_to(u, VOTE, to, clock, UNCERTAIN, &[], out);
    }
    let c = with_stage(t.sub.course, mask, PREPARED);
    let u = with_course(t, c);
    send_to(u, CONC, to, 0, 0, es, out)
}

// CERT taken: its vote.
pub fn certified_step(t: Turn, to: u64, vote: u64, out: &mut [u64]) -> Taken
    requires { CanSendTo t to (length out.old) }
    ensures value { result ≡ taken_of (certified_step t to vote) }
    ensures out_after { out.new ≡ overlay out.old (certified_step t to vote).words }
{
    let clock = t.counters.clock;
    if vote == 0 {
        let c = with_queue_mark(t.sub.course, clock);
        let u = with_course(t, c);
        return send_to(u, VOTE, to, clock, 0, &[], out);
    }
    let c = with_stage(t.sub.course, t.sub.course.mask, REJECTED);
    let u = with_course(t, c);
    send_to(u, VOTE, to, clock, vote, &[], out)
}
