// A line as a call of a site, which is in a place: its number less 1.
#![tactic(auto)]

mod own;

ghost use Rattle.std.specs.Prelude.{◌≡◌, ◌+◌, ◌<◌, eqb, length, take};
ghost use Rattle.laws.specs.Choice.{pick};
ghost use Rattle.kinds.specs.Sizes as sizes;
ghost use Rattle.rules.specs.House.{house_of, no_house};
ghost use Rattle.rules.specs.Install.{start_code};
ghost use Rattle.rules.specs.World.{firsts_of};
ghost use Rattle.lent.specs.Fresh.{fresh_core};
ghost use Rattle.calls.specs.Tables.{Tables, Taking};
ghost use Rattle.calls.specs.Places.{words, LineLeaves, MessageLeaves};

use kinds::sizes::{BASE, HISTORY_WORDS, LISTS, LIVE_WORDS, OUTGOING, SITES};
use kinds::{Core, House, Reply};
use lines::Command;
use own::own_call;
use pieces::front;
use spool::ITEM;
use store::message;

// Live parts, histories, base values and gathered lists of all sites, each one behind the other.
pub const LIVES: usize = SITES * LIVE_WORDS;

pub const HISTORIES: usize = SITES * HISTORY_WORDS;

pub const BASES: usize = SITES * BASE;

pub const GATHERINGS: usize = SITES * LISTS;

// A call of the site in a place, but for `take`, with the words of all sites.
fn in_place(
    p: Core,
    c: Command,
    place: usize,
    live: &mut [u64],
    history: &mut [u64],
    base: &mut [u64],
    lists: &mut [u64],
    out: &mut [u64],
) -> Reply
    requires { (place < sizes.sites) × Tables live.old history.old base.old lists.old }
    ensures { LineLeaves c place p
        (words live.old history.old base.old lists.old) out.old
        result
        (words live.new history.new base.new lists.new) out.new }
{
    let live_at = place * LIVE_WORDS;
    let history_at = place * HISTORY_WORDS;
    let base_at = place * BASE;
    let lists_at = place * LISTS;
    own_call(
        p,
        c,
        &mut live[live_at..live_at + LIVE_WORDS],
        &mut history[history_at..history_at + HISTORY_WORDS],
        &mut base[base_at..base_at + BASE],
        &mut lists[lists_at..lists_at + LISTS],
        out,
    )
}

// A line's call of the site in a place, but for `take`.
pub fn at_site(
    p: Core,
    c: Command,
    place: usize,
    live: &mut [u64; LIVES],
    history: &mut [u64; HISTORIES],
    base: &mut [u64; BASES],
    lists: &mut [u64; GATHERINGS],
    out: &mut [u64; OUTGOING],
) -> Reply
    requires { place < sizes.sites }
    ensures { LineLeaves c place p
        (words live.old history.old base.old lists.old) out.old
        result
        (words live.new history.new base.new lists.new) out.new }
{
    in_place(p, c, place, live, history, base, lists, out)
}

// The site in a place takes the message m, with the words of all sites but the base values.
fn take_in_place(
    p: Core,
    place: usize,
    live: &mut [u64],
    history: &[u64],
    lists: &mut [u64],
    m: &[u64],
    out: &mut [u64],
) -> Reply
    requires { (place < sizes.sites) × Taking live.old history.now lists.old }
    ensures { MessageLeaves m.now place p
        live.old history.now lists.old out.old
        result
        live.new lists.new out.new }
{
    let live_at = place * LIVE_WORDS;
    let history_at = place * HISTORY_WORDS;
    let lists_at = place * LISTS;
    message(
        p,
        &mut live[live_at..live_at + LIVE_WORDS],
        &history[history_at..history_at + HISTORY_WORDS],
        m,
        &mut lists[lists_at..lists_at + LISTS],
        out,
    )
}

// The site in a place takes the message that is the first n words of m.
pub fn take_at(
    p: Core,
    place: usize,
    live: &mut [u64; LIVES],
    history: &[u64; HISTORIES],
    lists: &mut [u64; GATHERINGS],
    m: &[u64; ITEM],
    n: usize,
    out: &mut [u64; OUTGOING],
) -> Reply
    requires { place < sizes.sites }
    ensures { MessageLeaves (take n m.now) place p
        live.old history.now lists.old out.old
        result
        live.new lists.new out.new }
{
    take_in_place(p, place, live, history, lists, front(m, n), out)
}

// A fresh site of a house, started with the house's first keys (Q3.8).
fn start_at(
    house: House,
    place: usize,
    live: &mut [u64],
    history: &mut [u64],
    base: &mut [u64],
    lists: &mut [u64],
) -> Core
    requires { (place < sizes.sites) × Tables live.old history.old base.old lists.old }
    ensures { result ≡ pick (eqb (start_code house.sites (firsts_of house) (place + 1) sizes.base sizes.lists) 0)
        (fresh_core (house_of house.sites (firsts_of house)) (place + 1)) (fresh_core no_house 0) }
{
    let n = house.sites;
    let firsts = house.firsts;
    let a = place * BASE;
    let b = place * LISTS;
    let x = place * LIVE_WORDS;
    let y = place * HISTORY_WORDS;
    store::start_site(
        n,
        front(&firsts, n as usize),
        place as u64 + 1,
        &mut live[x..x + LIVE_WORDS],
        &mut history[y..y + HISTORY_WORDS],
        &mut base[a..a + BASE],
        &mut lists[b..b + LISTS],
    )
    .core
}

// Every site of a house. A place that the house lacks holds what a refused start hands back; no line goes there.
pub fn start_sites(
    house: House,
    live: &mut [u64],
    history: &mut [u64],
    base: &mut [u64],
    lists: &mut [u64],
) -> [Core; SITES]
    requires { Tables live.old history.old base.old lists.old }
    ensures { length result ≡ sizes.sites }
{
    let first = start_at(house, 0, live, history, base, lists);
    let mut sites = [first; SITES];
    for i in 1..SITES {
        sites[i] = start_at(house, i, live, history, base, lists);
    }
    sites
}
