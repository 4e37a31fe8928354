// What stands around a call: a line is read and what it hands in fetched; what the call wrote is kept, and its outcome printed.
#![tactic(auto)]

pub mod open;
mod post;
pub mod route;

ghost use Rattle.std.specs.Prelude.{◌≡◌, ◌<◌, MatchOption};
ghost use Rattle.said.specs.Said.{said_of};
ghost use Rattle.pages.specs.Laid.{Laid, line_start, full};
ghost use Rattle.pages.specs.Line.{line_of};
ghost use Rattle.routing.specs.Route.{none};

use kinds::Answer;
use kinds::reason::NOTHING;
use kinds::sizes::{OUTGOING, SITES};
use lines::Command;
use pages::{Page, is_refused};
pub use post::COPIES;
use post::{STREAM, is_cursor, log, send_all};
use route::{MERGER, NOWHERE, routed};
use script::{Ending, Script};
use spool::{ITEM, Item, QUEUES, STORE, Spare, Unkept};

// A script under way: how many sites its house has, and how many lines it has had.
#[derive(Clone, Copy)]
pub struct Play {
    pub sites: u64,
    pub event: u64,
}

// What a line hands in: the next item of a queue or cursor.
#[derive(Clone, Copy)]
pub struct Handed {
    pub queue: usize,
    pub item: Item,
}

// A line and its place, with what it hands in.
#[derive(Clone, Copy)]
pub struct Ask {
    pub command: Command,
    pub place: usize,
    pub handed: Option<Handed>,
}

impl Ask {
    // How many words it hands in.
    pub fn words(self) -> usize
        ensures { MatchOption self.handed (result ≡ 0) (λ handed. result ≡ handed.item.words) }
    {
        match self.handed {
            Some(handed) => handed.item.words,
            None => 0,
        }
    }
}

fn unkept(_failed: Unkept) -> Ending {
    Ending::Unkept
}

// Prints a line's outcome.
pub fn answered(d: Play, page: &mut Page, a: Answer) -> Result<(), Ending>
    ensures { Laid page.old.bytes (line_start full page.old.used) (line_of d.event (said_of a)) page.new.bytes page.new.used }
{
    page.say(d.event, a)
}

// Writes out the answers so far where the next line has to be read from the input, so that a terminal shows them.
pub fn shown(script: &Script, page: &mut Page) -> Result<(), Ending> {
    if script.is_drained() && page.used != 0 {
        return page.flush();
    }
    Ok(())
}

// The item that a queue or cursor, below QUEUES, hands in next.
fn next_item(
    spare: &mut Spare,
    store: &mut [u64; STORE],
    queue: usize,
    item: &mut [u64; ITEM],
) -> Result<Option<Item>, Unkept>
    requires { queue < none }
{
    if is_cursor(queue) {
        return spool::next(spare, store, STREAM, queue, item);
    }
    spool::front(spare, store, queue, item)
}

// Fetches what is handed in; where there is none, the line is answered 17.
fn fetched(
    d: Play,
    command: Command,
    place: usize,
    queue: usize,
    spare: &mut Spare,
    store: &mut [u64; STORE],
    item: &mut [u64; ITEM],
    page: &mut Page,
) -> Result<Option<Ask>, Ending> {
    if QUEUES <= queue {
        return Ok(Some(Ask {
            command,
            place,
            handed: None,
        }));
    }
    match next_item(spare, store, queue, item).map_err(unkept)? {
        Some(item) => Ok(Some(Ask {
            command,
            place,
            handed: Some(Handed { queue, item }),
        })),
        None => {
            answered(d, page, Answer::Refused(NOTHING))?;
            Ok(None)
        }
    }
}

// Reads a line. None: it is answered already.
pub fn next_ask(
    d: &mut Play,
    script: &mut Script,
    spare: &mut Spare,
    store: &mut [u64; STORE],
    item: &mut [u64; ITEM],
    page: &mut Page,
) -> Result<Option<Ask>, Ending> {
    shown(script, page)?;
    let line = script.next_line();
    d.event = d.event.wrapping_add(1);
    let command = line?;
    let r = routed(d.sites, command);
    if NOWHERE <= r.place {
        answered(*d, page, Answer::Refused(r.code))?;
        return Ok(None);
    }
    fetched(*d, command, r.place, r.queue, spare, store, item, page)
}

// Goes on behind the item that was handed in: the stream keeps its own for the other copies.
fn passed(a: Ask, spare: &mut Spare, store: &mut [u64; STORE]) -> Result<(), Unkept> {
    let Some(Handed { queue, item }) = a.handed else {
        return Ok(());
    };
    if QUEUES <= queue {
        return Ok(());
    }
    if is_cursor(queue) {
        spool::step(store, queue, item);
        return Ok(());
    }
    spool::drop_front(spare, store, queue, item)
}

// Keeps what a call wrote: records in the site's log or the stream, messages on their channels.
fn kept(a: Ask, spare: &mut Spare, store: &mut [u64; STORE], words: &[u64]) -> Result<(), Unkept> {
    if words.is_empty() {
        return Ok(());
    }
    let place = a.place;
    if place == MERGER {
        return spool::push(spare, store, STREAM, words);
    }
    if SITES <= place {
        return Err(Unkept);
    }
    match a.command {
        Command::Install(_) | Command::Report(_) => spool::push(spare, store, log(place), words),
        _ => send_all(spare, store, words),
    }
}

fn kept_front(
    a: Ask,
    spare: &mut Spare,
    store: &mut [u64; STORE],
    out: &[u64],
    n: usize,
) -> Result<(), Unkept> {
    match out.get(..n) {
        Some(words) => kept(a, spare, store, words),
        None => Err(Unkept),
    }
}

// Ends an asked line: a refused one leaves what was handed in as the next, and wrote nothing.
pub fn settled(
    d: Play,
    a: Ask,
    answer: Answer,
    n: usize,
    out: &[u64; OUTGOING],
    spare: &mut Spare,
    store: &mut [u64; STORE],
    page: &mut Page,
) -> Result<(), Ending> {
    if !is_refused(answer) {
        passed(a, spare, store).map_err(unkept)?;
        kept_front(a, spare, store, out, n).map_err(unkept)?;
    }
    answered(d, page, answer)
}
