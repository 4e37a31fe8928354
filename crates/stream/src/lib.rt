// The lines that no site takes part in: those of the merger, and of the copies that its stream goes to.
#![tactic(auto)]

mod asked;

ghost use Rattle.std.specs.Prelude.{◌≡◌, ◌+◌, ◌≤◌, ◌<◌, ◌⊎◌, IfNone, IfSome};
ghost use Rattle.routing.specs.Route.{first_copy, copies, nowhere};

pub use asked::{ALL_COPIES, start_copies, start_merger};
use asked::{at_copy, at_merger};
use kinds::Merger;
use kinds::sizes::{OUTGOING, QUEUES};
use pages::Page;
use routing::route::{FIRST_COPY, NOWHERE};
use routing::{Ask, Play, settled};
use script::Ending;
use spool::{ITEM, STORE, Spare};

// A line of the merger, to its end.
pub fn merged(
    d: Play,
    a: Ask,
    g: &mut Merger,
    spare: &mut Spare,
    store: &mut [u64; STORE],
    item: &[u64; ITEM],
    queues: &mut [u64; QUEUES],
    out: &mut [u64; OUTGOING],
    page: &mut Page,
) -> Result<(), Ending> {
    let o = at_merger(*g, a.command, queues, item, a.words(), out);
    *g = o.merger;
    settled(d, a, o.answer, o.words, out, spare, store, page)
}

// The copy in a place, less 1.
fn copy_in(place: usize) -> Option<usize>
    ensures none { IfNone result ((place < first_copy) ⊎ (nowhere ≤ place)) }
    ensures copy { IfSome result (λ i. (place ≡ first_copy + i) × (i < copies)) }
{
    if place < FIRST_COPY || NOWHERE <= place {
        return None;
    }
    Some(place - FIRST_COPY)
}

// A line of a copy, to its end; any other is answered already.
pub fn copied(
    d: Play,
    a: Ask,
    spare: &mut Spare,
    store: &mut [u64; STORE],
    item: &[u64; ITEM],
    tables: &mut [u64; ALL_COPIES],
    out: &[u64; OUTGOING],
    page: &mut Page,
) -> Result<(), Ending> {
    let Some(i) = copy_in(a.place) else {
        return Ok(());
    };
    let answer = at_copy(a.command, i, tables, item, a.words());
    settled(d, a, answer, 0, out, spare, store, page)
}
