// Messages to the coordinator, whether it still holds the transaction or not.
ghost use Rattle.std.specs.Prelude.{◌≡◌, ◌≤◌, length};
ghost use Rattle.laws.specs.Overlay.{overlay};
ghost use Rattle.kinds.specs.Sizes as sizes;
ghost use Rattle.kinds.specs.Kind as kind;
ghost use Rattle.rules.specs.Deliver.{take_joined, take_vote, take_kind};
ghost use Rattle.rules.specs.DispatchLaws.{Incoming, or_passed};
ghost use Rattle.lent.specs.Lent.{site_of, Replied};
ghost use Rattle.handlers.specs.Held.{Reached, IsPlace, place_number};

use kinds::{Core, MessageHead, Reply};

pub fn on_joined(
    p: Core,
    live: &mut [u64],
    history: &[u64],
    h: MessageHead,
    place: Option<usize>,
) -> Reply
    requires reached { Reached p live.old history.now h.from }
    requires place { IsPlace place }
    ensures { Replied p live.old history.now result live.new history.now
        (or_passed (site_of p live.old history.now) h (place_number place)
        (take_joined (site_of p live.old history.now) h (place_number place))) }
{
    match place {
        None => shell::passed(p, h.from),
        Some(place) => handlers::coordinator::take_joined(p, live, history, h, place),
    }
}

pub fn on_conc(
    p: Core,
    live: &mut [u64],
    history: &[u64],
    h: MessageHead,
    es: &[u64],
    place: Option<usize>,
    lists: &mut [u64],
    out: &mut [u64],
) -> Reply
    requires incoming { Incoming (site_of p live.old history.now) h es.now × (h.kind ≡ kind.conc) }
    requires place { IsPlace place }
    requires lists_len { (length lists.old ≡ sizes.lists) × (sizes.outgoing ≤ length out.old) }
    ensures replied { Replied p live.old history.now result live.new history.now
        (take_kind kind.conc (site_of p live.old history.now) h es.now lists.old (place_number place)) }
    ensures lists_after { lists.new
        ≡ (take_kind kind.conc (site_of p live.old history.now) h es.now lists.old (place_number place)).lent }
    ensures out_after { out.new
        ≡ overlay out.old
        (take_kind kind.conc (site_of p live.old history.now) h es.now lists.old (place_number place)).words }
{
    match place {
        None => shell::passed(p, h.from),
        Some(place) => handlers::gather::take_conc(p, live, history, h, es, place, lists, out),
    }
}

pub fn on_vote(
    p: Core,
    live: &mut [u64],
    history: &[u64],
    h: MessageHead,
    place: Option<usize>,
    out: &mut [u64],
) -> Reply
    requires reached { Reached p live.old history.now h.from × (sizes.outgoing ≤ length out.old) }
    requires place { IsPlace place }
    ensures replied { Replied p live.old history.now result live.new history.now
        (or_passed (site_of p live.old history.now) h (place_number place)
        (take_vote (site_of p live.old history.now) h (place_number place))) }
    ensures out_after { out.new
        ≡ overlay out.old
        (or_passed (site_of p live.old history.now) h (place_number place)
        (take_vote (site_of p live.old history.now) h (place_number place))).words }
{
    match place {
        None => shell::passed(p, h.from),
        Some(place) => handlers::coordinator::take_vote(p, live, history, h, place, out),
    }
}
