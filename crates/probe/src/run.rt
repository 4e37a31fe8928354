// A probe from its first line to its last.
ghost use Rattle.std.specs.Prelude.{◌≡◌, length};
ghost use Rattle.kinds.specs.Sizes as sizes;

use effects::{Lent, first_keys, start_by};
use hand::HAND;
use hand::store::STORE;
use kinds::Core;
use kinds::sizes::{BASE, HISTORY_WORDS, LISTS, LIVE_WORDS, SITES};
use others::{
    BASES, COPIED, GATHERINGS, HISTORIES, LIVES, QUEUED, at_site, next_of_site, opened, settled,
};
use outcomes::{ROOM, Work, begun, is_over, lent_at_start, place_of};
use pages::Page;
use script::{Ending, Script};

// A fresh core; the words of a fresh site are zeros.
fn start_at(n: u64, lent: Lent, place: usize) -> Core {
    let mut live = [0u64; LIVE_WORDS];
    let mut history = [0u64; HISTORY_WORDS];
    let mut base = [0u64; BASE];
    let mut lists = [0u64; LISTS];
    let own = (place as u64).wrapping_add(1);
    start_by(
        n,
        lent.firsts,
        first_keys(lent, n),
        own,
        &mut live,
        &mut history,
        &mut base,
        &mut lists,
    )
    .core
}

// Every site of a house of n. A place that the house lacks holds what a refused start hands back; no line goes there.
fn start_sites(n: u64, lent: Lent) -> [Core; SITES]
    ensures { length result ≡ sizes.sites }
{
    let first = start_at(n, lent, 0);
    let mut sites = [first; SITES];
    for i in 1..SITES {
        sites[i] = start_at(n, lent, i);
    }
    sites
}

// One house, up to the next. A place is found for each line that is for a site: `next_of_site` answers the others.
fn one_house(w: &mut Work, script: &mut Script, page: &mut Page) -> Result<(), Ending> {
    let mut live = [0u64; LIVES];
    let mut history = [0u64; HISTORIES];
    let mut base = [0u64; BASES];
    let mut lists = [0u64; GATHERINGS];
    let mut queues = [0u64; QUEUED];
    let mut copies = [0u64; COPIED];
    let mut store = [0u64; STORE];
    let mut hand = [0u64; HAND];
    let mut out = [0u64; ROOM];
    let mut sites = start_sites(w.sites, lent_at_start(*w));
    let mut g = opened(w, &mut queues);
    for _ in 0..u64::MAX {
        next_of_site(
            w,
            &mut g,
            script,
            &mut hand,
            &mut store,
            &mut queues,
            &mut copies,
            &mut out,
            page,
        )?;
        if is_over(*w) {
            break;
        }
        let Some(i) = place_of(*w) else {
            break;
        };
        let o = at_site(
            *w,
            sites[i],
            i,
            &hand,
            &mut live,
            &mut history,
            &mut base,
            &mut lists,
            &mut out,
        );
        sites[i] = o.core;
        settled(w, o.done, &mut store, &out, page)?;
    }
    Ok(())
}

// Plays a probe to its end: one house after the other.
pub fn play(script: &mut Script, page: &mut Page) -> Result<(), Ending> {
    let mut w = begun();
    for _ in 0..u64::MAX {
        one_house(&mut w, script, page)?;
    }
    Ok(())
}
