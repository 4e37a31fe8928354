// Message: the next one on its channel, taken.
ghost use Rattle.std.specs.Prelude.{◌≡◌, true, ◌≤◌, length};
ghost use Rattle.laws.specs.Overlay.{overlay};
ghost use Rattle.kinds.specs.Sizes as sizes;
ghost use Rattle.rules.specs.Message.{message_ok};
ghost use Rattle.rules.specs.Deliver.{message_of};
ghost use Rattle.lent.specs.Lent.{site_of, Replied};

use crate::codes::{check_arrival, check_next};
use crate::dispatch::take_kind;
use kinds::sizes::MESSAGE_HEADER;
use kinds::{Core, House, Reply};

// Whether the words are a message of the house, asked of a valid site only.
fn formed(ok: bool, o: House, m: &[u64]) -> bool
    requires { ok ≡ true → o.sites ≤ sizes.sites }
    ensures { ok ≡ true → result ≡ message_ok o m.now }
{
    ok && messages::message_ok(o, m)
}

// A function of its own: in line in a caller, the core is copied to `take_kind`, and a JOIN takes a fifth more time.
#[inline(never)]
pub fn message(
    p: Core,
    live: &mut [u64],
    history: &[u64],
    m: &[u64],
    lists: &mut [u64],
    out: &mut [u64],
) -> Reply
    ensures replied { Replied p live.old history.now result live.new history.now
        (message_of (site_of p live.old history.now) (length out.old) lists.old
        m.now) }
    ensures lists_after { lists.new
        ≡ (message_of (site_of p live.old history.now) (length out.old) lists.old
        m.now).lent }
    ensures out_after { out.new
        ≡ overlay out.old
        (message_of (site_of p live.old history.now) (length out.old) lists.old
        m.now).words }
{
    let ok = valid::handed_ok(p, live, history, lists);
    let house = tables::lent_house(p.house, live.len(), history.len());
    let fine = formed(ok, house, m);
    if let Err(cause) = check_arrival(ok, out.len(), fine) {
        return shell::refused_by(p, cause);
    }
    let h = messages::read_head(m);
    let from = h.from as usize - 1;
    if let Err(cause) = check_next(h.to, p.counters.own, h.channel, p.channels.taken[from]) {
        return shell::refused_by(p, cause);
    }
    let place = live::place_of(p.seats, h.tx);
    take_kind(p, live, history, h, &m[MESSAGE_HEADER..], place, lists, out)
}
