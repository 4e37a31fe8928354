// The lines of a probe that no site obeys: those of the merger and the copies, the conversions, records to bytes, those of the words
// in hand and of the lengths lent.
#![tactic(auto)]

ghost use Rattle.std.specs.Prelude.{◌<◌};
ghost use Rattle.kinds.specs.Sizes as sizes;

use effects::{
    COPIES, COPY_PLACE, Done, Lent, SiteDone, absent, at_bookmarks, at_bytes, at_copy, at_merger,
    first_keys,
};
use hand::store::STORE;
use hand::{HAND, shaped, shown};
use kinds::sizes::{BASE, HISTORY_WORDS, LISTS, LIVE_WORDS, QUEUES, SITES};
use kinds::{Core, Merger};
use outcomes::{
    ROOM, Work, answered, is_for_site, is_over, keep, lend_anew, lent_at_start, place_of,
    read_line, room_of, told_of,
};
use pages::Page;
use pieces::{front, front_mut, piece_mut};
use script::{Ending, Script};
use verbs::Group;

// Words of a site's place, each one more than it uses, so that too many can be lent.
const LIVE_PLACE: usize = LIVE_WORDS + 1;

const HISTORY_PLACE: usize = HISTORY_WORDS + 1;

const BASE_PLACE: usize = BASE + 1;

const LISTS_PLACE: usize = LISTS + 1;

pub const LIVES: usize = SITES * LIVE_PLACE;

pub const HISTORIES: usize = SITES * HISTORY_PLACE;

pub const BASES: usize = SITES * BASE_PLACE;

pub const GATHERINGS: usize = SITES * LISTS_PLACE;

pub const QUEUED: usize = QUEUES + 1;

pub const COPIED: usize = COPIES * COPY_PLACE;

fn start_merger(n: u64, lent: Lent, queues: &mut [u64]) -> Merger {
    let table = front(&lent.firsts, first_keys(lent, n));
    store::start_merger(n, table, front_mut(queues, QUEUES)).merger
}

// Nothing in hand, nothing kept, every table lent whole. Answers the house's merger.
pub fn opened(w: &mut Work, queues: &mut [u64; QUEUED]) -> Merger {
    w.lent = lent_at_start(*w);
    w.held = 0;
    w.kept = 0;
    start_merger(w.sites, w.lent, queues)
}

fn to_merger(
    w: &mut Work,
    g: &mut Merger,
    hand: &[u64],
    store: &mut [u64],
    queues: &mut [u64],
    out: &mut [u64],
    page: &mut Page,
) -> Result<(), Ending> {
    let o = at_merger(
        *g,
        w.line,
        w.lent,
        front(hand, w.held),
        queues,
        front_mut(out, w.lent.room),
    );
    *g = o.merger;
    keep(w, o.done, store, out);
    told_of(*w, page, o.done)
}

fn to_copy(w: Work, hand: &[u64], copies: &mut [u64], page: &mut Page) -> Result<(), Ending> {
    let d = at_copy(w.line, w.lent, front(hand, w.held), copies);
    told_of(w, page, d)
}

// A run is lent as many words as its line says, of those that the outgoing buffer has.
fn to_bookmarks(w: Work, hand: &[u64], out: &mut [u64], page: &mut Page) -> Result<(), Ending> {
    let d = at_bookmarks(w.line, front(hand, w.held), front_mut(out, room_of(w.line)));
    told_of(w, page, d)
}

// Neither the outgoing buffer nor its length bears on a record to bytes.
fn to_bytes(w: Work, hand: &[u64], page: &mut Page) -> Result<(), Ending> {
    let d = at_bytes(w.line, front(hand, w.held));
    told_of(w, page, d)
}

fn to_hand(
    w: &mut Work,
    hand: &mut [u64],
    store: &[u64; STORE],
    page: &mut Page,
) -> Result<(), Ending> {
    let h = shaped(w.line, hand, w.held, store, w.kept);
    w.held = h.unwrap_or(w.held);
    answered(*w, page, shown(hand, h))
}

// Answers a line for a site that the house lacks.
fn if_there(w: &mut Work, page: &mut Page) -> Result<(), Ending> {
    if place_of(*w).is_some() {
        return Ok(());
    }
    told_of(*w, page, absent())?;
    w.line = verbs::remark();
    Ok(())
}

// Reads a line, and obeys it where it is for no site.
fn turn(
    w: &mut Work,
    g: &mut Merger,
    script: &mut Script,
    hand: &mut [u64; HAND],
    store: &mut [u64; STORE],
    queues: &mut [u64; QUEUED],
    copies: &mut [u64; COPIED],
    out: &mut [u64; ROOM],
    page: &mut Page,
) -> Result<(), Ending> {
    read_line(w, script)?;
    match w.line.group {
        Group::Merger => to_merger(w, g, hand, store, queues, out, page),
        Group::Copy => to_copy(*w, hand, copies, page),
        Group::Bookmark => to_bookmarks(*w, hand, out, page),
        Group::Bytes => to_bytes(*w, hand, page),
        Group::Hand => to_hand(w, hand, store, page),
        Group::Lent => {
            lend_anew(w);
            Ok(())
        }
        Group::Site => if_there(w, page),
        Group::House | Group::Nobody => Ok(()),
    }
}

// Goes on to the next line for a site, or to the end of the house.
pub fn next_of_site(
    w: &mut Work,
    g: &mut Merger,
    script: &mut Script,
    hand: &mut [u64; HAND],
    store: &mut [u64; STORE],
    queues: &mut [u64; QUEUED],
    copies: &mut [u64; COPIED],
    out: &mut [u64; ROOM],
    page: &mut Page,
) -> Result<(), Ending> {
    for _ in 0..u64::MAX {
        turn(w, g, script, hand, store, queues, copies, out, page)?;
        if is_over(*w) || is_for_site(*w) {
            break;
        }
    }
    Ok(())
}

// Calls the site in a place.
fn in_place(
    w: Work,
    p: Core,
    place: usize,
    hand: &[u64],
    live: &mut [u64],
    history: &mut [u64],
    base: &mut [u64],
    lists: &mut [u64],
    out: &mut [u64],
) -> SiteDone
    requires { place < sizes.sites }
{
    effects::at_site(
        p,
        w.line,
        w.lent,
        front(hand, w.held),
        piece_mut(live, place * LIVE_PLACE, LIVE_PLACE),
        piece_mut(history, place * HISTORY_PLACE, HISTORY_PLACE),
        piece_mut(base, place * BASE_PLACE, BASE_PLACE),
        piece_mut(lists, place * LISTS_PLACE, LISTS_PLACE),
        front_mut(out, w.lent.room),
    )
}

pub fn at_site(
    w: Work,
    p: Core,
    place: usize,
    hand: &[u64; HAND],
    live: &mut [u64; LIVES],
    history: &mut [u64; HISTORIES],
    base: &mut [u64; BASES],
    lists: &mut [u64; GATHERINGS],
    out: &mut [u64; ROOM],
) -> SiteDone
    requires { place < sizes.sites }
{
    in_place(w, p, place, hand, live, history, base, lists, out)
}

// Ends a site's line.
pub fn settled(
    w: &mut Work,
    d: Done,
    store: &mut [u64; STORE],
    out: &[u64; ROOM],
    page: &mut Page,
) -> Result<(), Ending> {
    keep(w, d, store, out);
    told_of(*w, page, d)
}
