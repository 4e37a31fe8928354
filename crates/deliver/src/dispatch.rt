// Work is decided by message kind, 1 to 8, anything else refused.
// Stays: F4 names one match over the kind number, with ranges for the impossible kinds.
ghost use Rattle.std.specs.Prelude.{◌≡◌, ◌≤◌, length};
ghost use Rattle.laws.specs.Overlay.{overlay};
ghost use Rattle.kinds.specs.Sizes as sizes;
ghost use Rattle.rules.specs.Deliver.{take_kind};
ghost use Rattle.rules.specs.DispatchLaws.{Incoming};
ghost use Rattle.lent.specs.Lent.{site_of, Replied};
ghost use Rattle.handlers.specs.Held.{IsPlace, place_number};

use crate::coordinator::{on_conc, on_joined, on_vote};
use crate::participant::{on_abort, on_cert, on_commit, on_prepare};
use kinds::{Core, MessageHead, Refusal, Reply, kind};

// In line in `message`: else the core, 488 bytes, is copied to it.
#[inline(always)]
pub fn take_kind(
    p: Core,
    live: &mut [u64],
    history: &[u64],
    h: MessageHead,
    es: &[u64],
    place: Option<usize>,
    lists: &mut [u64],
    out: &mut [u64],
) -> Reply
    requires incoming { Incoming (site_of p live.old history.now) h es.now }
    requires place { IsPlace place }
    requires lists_len { (length lists.old ≡ sizes.lists) × (sizes.outgoing ≤ length out.old) }
    ensures replied { Replied p live.old history.now result live.new history.now
        (take_kind h.kind (site_of p live.old history.now) h es.now lists.old (place_number place)) }
    ensures lists_after { lists.new
        ≡ (take_kind h.kind (site_of p live.old history.now) h es.now lists.old (place_number place)).lent }
    ensures out_after { out.new
        ≡ overlay out.old
        (take_kind h.kind (site_of p live.old history.now) h es.now lists.old (place_number place)).words }
{
    match h.kind {
        kind::JOIN => handlers::participant::take_join(p, live, history, h, place, out),
        kind::JOINED => on_joined(p, live, history, h, place),
        kind::PREPARE => on_prepare(p, live, history, h, place, out),
        kind::CONC => on_conc(p, live, history, h, es, place, lists, out),
        kind::CERT => on_cert(p, live, history, h, es, place, out),
        kind::VOTE => on_vote(p, live, history, h, place, out),
        kind::COMMIT => on_commit(p, live, history, h, place),
        kind::ABORT => on_abort(p, live, history, h, place),
        0 => shell::refused_by(p, Refusal::Malformed),
        9..=u64::MAX => shell::refused_by(p, Refusal::Malformed),
    }
}
