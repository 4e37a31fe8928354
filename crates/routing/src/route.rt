// Where a line's call goes (H1 to H20), and the refusals that arise before the store is asked.
ghost use Rattle.std.specs.Prelude.{◌≡◌, ◌<◌};
ghost use Rattle.routing.specs.Route.{refuse as refuseOf, goes, none, is_placed, to_site, to_coordinator, to_enlister, to_receiver};
ghost use Rattle.routing.specs.Route.{has_site, from_log, to_copy, from_stream, route_of};

use crate::post::{COPIES, channel, cursor, log};
use kinds::reason::{MALFORMED, UNKNOWN};
use kinds::sizes::SITES;
use lines::Command;
use numbers::coordinator_of;
use spool::QUEUES;

// A place below SITES is a site, less 1; one from FIRST_COPY to NOWHERE is a copy.
pub const MERGER: usize = SITES;

pub const FIRST_COPY: usize = SITES + 1;

pub const NOWHERE: usize = FIRST_COPY + COPIES;

// The place, the queue whose first item is handed in, or the cursor whose next one is (QUEUES for none), and the refusal where the
// place is NOWHERE.
// Stays: `routed` is an equation with the rules' Route.route_of, of which this is the type.
#[derive(Clone, Copy)]
pub struct Route {
    pub place: usize,
    pub queue: usize,
    pub code: u64,
}

fn refuse(code: u64) -> Route
    ensures { result ≡ refuseOf code }
{
    Route {
        place: NOWHERE,
        queue: QUEUES,
        code,
    }
}

fn to(place: usize) -> Route
    ensures { result ≡ goes place none }
{
    Route {
        place,
        queue: QUEUES,
        code: 0,
    }
}

#[tactic(auto, unfolding(crate::specs::Route::to_site))]
fn to_site(sites: u64, site: u64) -> Route
    ensures { result ≡ to_site sites site }
{
    if !is_placed(sites, site) {
        return refuse(MALFORMED);
    }
    to((site - 1) as usize)
}

// A site of a house of so many.
#[tactic(auto, unfolding(crate::specs::Route::has_site, rules::specs::House::is_site))]
fn has_site(sites: u64, site: u64) -> bool
    ensures { result ≡ has_site sites site }
{
    if site < 1 {
        return false;
    }
    site <= sites
}

// One with a place.
#[tactic(auto, unfolding(crate::specs::Route::is_placed))]
fn is_placed(sites: u64, site: u64) -> bool
    ensures { result ≡ is_placed sites site }
{
    if !has_site(sites, site) {
        return false;
    }
    site <= SITES as u64
}

// A number whose coordinator the house lacks is held nowhere.
#[tactic(auto, unfolding(crate::specs::Route::to_coordinator))]
fn to_coordinator(sites: u64, tx: u64) -> Route
    ensures { result ≡ to_coordinator sites tx }
{
    let coordinator = coordinator_of(tx);
    if !has_site(sites, coordinator) {
        return refuse(UNKNOWN);
    }
    to_site(sites, coordinator)
}

#[tactic(auto, unfolding(crate::specs::Route::to_enlister))]
fn to_enlister(sites: u64, tx: u64, site: u64) -> Route
    ensures { result ≡ to_enlister sites tx site }
{
    if !has_site(sites, site) {
        return refuse(MALFORMED);
    }
    to_coordinator(sites, tx)
}

// A message's receiver.
#[tactic(auto, unfolding(crate::specs::Route::to_receiver))]
fn to_receiver(sites: u64, from: u64, to: u64) -> Route
    ensures { result ≡ to_receiver sites from to }
{
    if !is_placed(sites, from) {
        return refuse(MALFORMED);
    }
    if !is_placed(sites, to) {
        return refuse(MALFORMED);
    }
    let sender = (from - 1) as usize;
    let receiver = (to - 1) as usize;
    Route {
        place: receiver,
        queue: channel(sender, receiver),
        code: 0,
    }
}

#[tactic(auto, unfolding(crate::specs::Route::from_log))]
fn from_log(sites: u64, site: u64) -> Route
    ensures { result ≡ from_log sites site }
{
    if !is_placed(sites, site) {
        return refuse(MALFORMED);
    }
    let i = (site - 1) as usize;
    Route {
        place: MERGER,
        queue: log(i),
        code: 0,
    }
}

#[tactic(auto, unfolding(crate::specs::Route::to_copy))]
fn to_copy(copy: u64) -> Route
    ensures { result ≡ to_copy copy }
{
    if copy < 1 {
        return refuse(MALFORMED);
    }
    if copy > COPIES as u64 {
        return refuse(MALFORMED);
    }
    to(FIRST_COPY + (copy - 1) as usize)
}

// The next record of the stream goes to a copy.
#[tactic(auto, unfolding(crate::specs::Route::from_stream))]
fn from_stream(copy: u64) -> Route
    ensures { result ≡ from_stream copy }
{
    if copy < 1 {
        return refuse(MALFORMED);
    }
    if copy > COPIES as u64 {
        return refuse(MALFORMED);
    }
    let i = (copy - 1) as usize;
    Route {
        place: FIRST_COPY + i,
        queue: cursor(i),
        code: 0,
    }
}

#[tactic(auto, unfolding(crate::specs::Route::route_of))]
pub fn routed(sites: u64, c: Command) -> Route
    ensures { result ≡ route_of sites c }
{
    match c {
        Command::Begin(site, _) => to_site(sites, site),
        Command::Enlist(tx, site) => to_enlister(sites, tx, site),
        Command::Read(site, _, _) => to_site(sites, site),
        Command::Write(site, _, _, _, _) => to_site(sites, site),
        Command::Commit(tx) => to_coordinator(sites, tx),
        Command::Abandon(tx) => to_coordinator(sites, tx),
        Command::Take(from, site) => to_receiver(sites, from, site),
        Command::Install(site) => to_site(sites, site),
        Command::Report(site) => to_site(sites, site),
        Command::Merge(site) => from_log(sites, site),
        Command::Emit => to(MERGER),
        Command::Replay(copy) => from_stream(copy),
        Command::Value(copy, _) => to_copy(copy),
        _ => refuse(MALFORMED),
    }
}
