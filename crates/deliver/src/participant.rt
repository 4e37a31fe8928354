// Messages to a participant, whether it holds the transaction or not.
ghost use Rattle.std.specs.Prelude.{◌≡◌, ◌≤◌, length};
ghost use Rattle.laws.specs.Overlay.{overlay};
ghost use Rattle.kinds.specs.Sizes as sizes;
ghost use Rattle.kinds.specs.Kind as kind;
ghost use Rattle.rules.specs.Deliver.{take_cert, take_commit, take_abort};
ghost use Rattle.rules.specs.DispatchLaws.{Incoming, or_passed, prepared_or};
ghost use Rattle.lent.specs.Lent.{site_of, Replied};
ghost use Rattle.handlers.specs.Held.{Reached, IsPlace, place_number};

use kinds::{Core, MessageHead, Reply};

pub fn on_prepare(
    p: Core,
    live: &mut [u64],
    history: &[u64],
    h: MessageHead,
    place: Option<usize>,
    out: &mut [u64],
) -> Reply
    requires reached { Reached p live.old history.now h.from × (sizes.outgoing ≤ length out.old) }
    requires place { IsPlace place }
    ensures replied { Replied p live.old history.now result live.new history.now
        (prepared_or (site_of p live.old history.now) h (place_number place)) }
    ensures out_after { out.new
        ≡ overlay out.old (prepared_or (site_of p live.old history.now) h (place_number place)).words }
{
    match place {
        None => handlers::participant::pass_prepare(p, live, history, h, out),
        Some(place) => handlers::participant::take_prepare(p, live, history, h, place, out),
    }
}

pub fn on_cert(
    p: Core,
    live: &mut [u64],
    history: &[u64],
    h: MessageHead,
    es: &[u64],
    place: Option<usize>,
    out: &mut [u64],
) -> Reply
    requires incoming { Incoming (site_of p live.old history.now) h es.now × (h.kind ≡ kind.cert) }
    requires place { IsPlace place }
    requires outgoing_in_bounds { sizes.outgoing ≤ length out.old }
    ensures replied { Replied p live.old history.now result live.new history.now
        (or_passed (site_of p live.old history.now) h (place_number place)
        (take_cert (site_of p live.old history.now) h es.now (place_number place))) }
    ensures out_after { out.new
        ≡ overlay out.old
        (or_passed (site_of p live.old history.now) h (place_number place)
        (take_cert (site_of p live.old history.now) h es.now (place_number place))).words }
{
    match place {
        None => shell::passed(p, h.from),
        Some(place) => handlers::participant::take_cert(p, live, history, h, es, place, out),
    }
}

pub fn on_commit(
    p: Core,
    live: &mut [u64],
    history: &[u64],
    h: MessageHead,
    place: Option<usize>,
) -> Reply
    requires reached { Reached p live.old history.now h.from }
    requires place { IsPlace place }
    ensures { Replied p live.old history.now result live.new history.now
        (or_passed (site_of p live.old history.now) h (place_number place)
        (take_commit (site_of p live.old history.now) h (place_number place))) }
{
    match place {
        None => shell::passed(p, h.from),
        Some(place) => handlers::participant::take_commit(p, live, history, h, place),
    }
}

pub fn on_abort(
    p: Core,
    live: &mut [u64],
    history: &[u64],
    h: MessageHead,
    place: Option<usize>,
) -> Reply
    requires reached { Reached p live.old history.now h.from }
    requires place { IsPlace place }
    ensures { Replied p live.old history.now result live.new history.now
        (or_passed (site_of p live.old history.now) h (place_number place)
        (take_abort (site_of p live.old history.now) h (place_number place))) }
{
    match place {
        None => shell::passed(p, h.from),
        Some(place) => handlers::participant::take_abort(p, live, history, h, place),
    }
}
