// A step's messages, and the counts after them.
ghost use Rattle.std.specs.Prelude.{◌≡◌, ◌+◌, ◌-◌, ◌≤◌, ◌<◌, length, get_or};
ghost use Rattle.laws.specs.Overlay.{overlay};
ghost use Rattle.kinds.specs.Sizes as sizes;
ghost use Rattle.rules.specs.Effect.{taken_of};
ghost use Rattle.rules.specs.Course.{sent_to as sentToOf, send_to, send_all, Entries, CanSendTo, CanSendAll};

use crate::channels::step_site;
use kinds::sizes::ENTRY;
use kinds::{Answer, Channels, MessageHead, Taken, Turn};

fn sent_to(c: Channels, site: u64) -> Channels
    requires { (1 ≤ site) × ((site ≤ sizes.sites) × (get_or c.sent (site - 1) 0 < sizes.last)) }
    ensures { result ≡ sentToOf c site }
{
    let mut d = c;
    step_site(&mut d.sent, site);
    d
}

// One message to site `to`.
pub fn send_to(
    t: Turn,
    kind: u64,
    to: u64,
    clock: u64,
    argument: u64,
    es: &[u64],
    out: &mut [u64],
) -> Taken
    requires { CanSendTo t to (length out.old) × Entries es.now }
    ensures value { result ≡ taken_of (send_to t kind to clock argument es.now) }
    ensures out_after { out.new ≡ overlay out.old (send_to t kind to clock argument es.now).words }
{
    let h = MessageHead {
        kind,
        from: t.counters.own,
        to,
        channel: t.channels.sent[(to - 1) as usize] + 1,
        tx: t.sub.tx,
        clock,
        argument,
        count: (es.len() / ENTRY) as u64,
    };
    let words = messages::write_message(out, h, es);
    let channels = sent_to(t.channels, to);
    Taken {
        answer: Answer::Done,
        words,
        turn: Turn { channels, ..t },
    }
}

// One message to each other participant.
pub fn send_all(
    t: Turn,
    answer: Answer,
    kind: u64,
    clock: u64,
    argument: u64,
    es: &[u64],
    out: &mut [u64],
) -> Taken
    requires { CanSendAll t (length out.old) × Entries es.now }
    ensures value { result ≡ taken_of (send_all t answer kind clock argument es.now) }
    ensures out_after { out.new ≡ overlay out.old (send_all t answer kind clock argument es.now).words }
{
    let sent = t.channels.sent;
    let own = t.counters.own;
    let mask = t.sub.course.mask;
    let h = MessageHead {
        kind,
        from: own,
        to: 0,
        channel: 0,
        tx: t.sub.tx,
        clock,
        argument,
        count: (es.len() / ENTRY) as u64,
    };
    let words = messages::broadcast(out, h, sent, mask, es);
    let stepped = messages::step_recipients(sent, mask, own);
    let channels = Channels {
        sent: stepped,
        ..t.channels
    };
    Taken {
        answer,
        words,
        turn: Turn { channels, ..t },
    }
}
