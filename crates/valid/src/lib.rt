// Whether a handed state is possible: its counts, keys, masks and desks are within the sizes of a house, and what goes out in messages
// is of the house.

#![tactic(auto)]

ghost use Rattle.std.specs.Prelude.{true, ◌≡◌, ◌+◌, ◌≤◌, eqb, length, get_or};
ghost use Rattle.laws.specs.Choice.{pick};
ghost use Rattle.laws.specs.Scan.{all_below};
ghost use Rattle.kinds.specs.Sizes as sizes;
ghost use Rattle.kinds.specs.Stage as stages;
ghost use Rattle.kinds.specs.Word as words;
ghost use Rattle.rules.specs.Message.{entry_possible};
ghost use Rattle.rules.specs.Valid.{course_ok, desk_ok, sub_ok, slot_ok, counters_ok, live_ok, history_ok, site_ok, lists_ok, handed_ok};
ghost use Rattle.rules.specs.ValidLaws.{ValidHouse};
ghost use Rattle.lent.specs.Layout.{keys_from, sub_from, entry_from, live_of, history_of};
ghost use Rattle.lent.specs.Lent.{site_of};
ghost use Rattle.valid.specs.Homes.{Homed};
ghost use Rattle.valid.specs.Lists.{Gathered};

use history::remembered;
use keys::keys_ok_in;
use kinds::sizes::{CONC_ENTRIES, GATHERED, HISTORY, LAST_SERIAL, LISTS, LIVE, PLACE, SLOT};
use kinds::stage::{FREE, REJECTED};
use kinds::{Core, Counters, House, Key, Seat, word};
use messages::entries_possible;
use numbers::{
    end_key, first_key, house_ok, in_mask, is_desk, is_mask, is_site, is_tx, participants,
    write_limit,
};
use tables::lent_house;

// A site of a house: its number, and the range of its keys, `count` keys from `first` on (Q3.1).
#[derive(Clone, Copy)]
struct Home {
    house: House,
    own: u64,
    first: Key,
    count: u64,
}

// Replies come from other sites, and each list gathered has at most `CONC_ENTRIES` entries, the own one included. Most places have no
// list, and then no replies are counted.
fn course_ok(o: House, own: u64, seat: Seat, w: &[u64], at: usize) -> bool
    requires { ValidHouse o own × (at + sizes.place ≤ length w.now) }
    ensures { result ≡ course_ok o own (sub_from seat w.now at).course }
{
    let mask = w[at + word::PLACE_MASK];
    let heard = w[at + word::PLACE_HEARD];
    let listed = w[at + word::PLACE_LISTED] as usize;
    if REJECTED < seat.stage {
        return false;
    }
    if !is_mask(o, mask) {
        return false;
    }
    if !is_mask(o, heard) {
        return false;
    }
    if in_mask(heard, own) {
        return false;
    }
    if listed == 0 {
        return true;
    }
    let lists = participants(heard) as usize + 1;
    listed <= CONC_ENTRIES * lists
}

// A desk, and at most as many keys written as it allows (Q10.6).
fn desk_ok(w: &[u64], at: usize) -> bool
    requires { at + sizes.place ≤ length w.now }
    ensures { result ≡ desk_ok (get_or w.now (at + words.place_desk) 0) (keys_from w.now (at + words.place_keys)) }
{
    let desk = w[at + word::PLACE_DESK];
    let wrote = w[at + word::PLACE_KEYS + word::KEYS_WROTE] as usize;
    is_desk(desk) && wrote <= write_limit(desk)
}

// The part of a seat, with its other words from word `at` on: a held one goes out in messages.
fn part_ok(s: Home, seat: Seat, w: &[u64], at: usize) -> bool
    requires { Homed s × (at + sizes.place ≤ length w.now) }
    ensures { result ≡ sub_ok s.house s.own (sub_from seat w.now at) }
{
    if !course_ok(s.house, s.own, seat, w, at) {
        return false;
    }
    if !keys_ok_in(s.first, s.count, w, at + word::PLACE_KEYS) {
        return false;
    }
    if !desk_ok(w, at) {
        return false;
    }
    seat.stage == FREE || is_tx(s.house, seat.tx)
}

// An install in a slot of the history, from word `at` on: one that is remembered goes out in messages too.
fn slot_ok(s: Home, used: bool, h: &[u64], at: usize) -> bool
    requires { Homed s × (at + sizes.slot ≤ length h.now) }
    ensures { result ≡ slot_ok s.house s.own used (entry_from h.now at) }
{
    let mask = h[at + word::SLOT_MASK];
    if !is_mask(s.house, mask) {
        return false;
    }
    if !keys_ok_in(s.first, s.count, h, at + word::SLOT_KEYS) {
        return false;
    }
    !used || is_tx(s.house, h[at + word::SLOT_TX])
}

fn counters_ok(o: House, c: Counters) -> bool
    ensures { result ≡ counters_ok o c }
{
    is_site(o, c.own) && c.serial <= LAST_SERIAL
}

fn live_ok(s: Home, seats: [Seat; LIVE], w: &[u64]) -> bool
    requires { Homed s × (length w.now ≡ sizes.live_words) }
    ensures { result ≡ live_ok s.house s.own (live_of seats w.now) }
{
    for i in 0..LIVE {
        if !part_ok(s, seats[i], w, PLACE * i) {
            return false;
        }
    }
    true
}

fn history_ok(s: Home, installs: u64, h: &[u64]) -> bool
    requires { Homed s × (length h.now ≡ sizes.history_words) }
    ensures { result ≡ history_ok s.house s.own installs (history_of h.now) }
{
    let n = remembered(installs);
    for i in 0..HISTORY {
        if !slot_ok(s, i < n, h, SLOT * i) {
            return false;
        }
    }
    true
}

pub fn site_ok(p: Core, live: &[u64], history: &[u64]) -> bool
    ensures { result ≡ site_ok (site_of p live.now history.now) }
{
    let house = lent_house(p.house, live.len(), history.len());
    if !house_ok(house) {
        return false;
    }
    if !counters_ok(house, p.counters) {
        return false;
    }
    let own = p.counters.own;
    let first = first_key(house, own);
    let count = end_key(house, own) - first;
    let s = Home {
        house,
        own,
        first,
        count,
    };
    if !live_ok(s, p.seats, live) {
        return false;
    }
    history_ok(s, p.counters.installs, history)
}

// The gathered entries of a part at this stage, at the front of `es`.
fn list_ok(o: House, stage: u64, listed: usize, es: &[u64]) -> bool
    requires sites_le_sites { o.sites ≤ sizes.sites }
    requires listed_le_cert_entries { (listed ≤ sizes.cert_entries) × (sizes.gathered ≤ length es.now) }
    ensures { result ≡ pick (eqb stage stages.free) true (all_below (entry_possible o es.now) listed) }
{
    stage == FREE || entries_possible(o, es, listed)
}

// A function of its own: in line in a call, the answer is set at each test of an entry.
#[inline(never)]
fn lists_ok(o: House, seats: [Seat; LIVE], w: &[u64], lists: &[u64]) -> bool
    requires { Gathered o w.now lists.now }
    ensures { result ≡ lists_ok o (live_of seats w.now) lists.now }
{
    for i in 0..LIVE {
        let listed = w[PLACE * i + word::PLACE_LISTED] as usize;
        if !list_ok(o, seats[i].stage, listed, &lists[GATHERED * i..]) {
            return false;
        }
    }
    true
}

// A site with its gathered lists, as commit and message are handed them.
pub fn handed_ok(p: Core, live: &[u64], history: &[u64], lists: &[u64]) -> bool
    ensures { result ≡ handed_ok (site_of p live.now history.now) lists.now }
{
    if lists.len() != LISTS {
        return false;
    }
    if !site_ok(p, live, history) {
        return false;
    }
    lists_ok(p.house, p.seats, live, lists)
}
