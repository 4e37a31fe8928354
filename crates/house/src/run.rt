// A script from its first line to its last.
ghost use Rattle.std.specs.Prelude.{◌≡◌, length};
ghost use Rattle.kinds.specs.Sizes as sizes;

use calls::{BASES, GATHERINGS, HISTORIES, LIVES, at_site, start_sites, take_at};
use kinds::reason::MALFORMED;
use kinds::sizes::{OUTGOING, QUEUES, SITES};
use kinds::{Answer, Core, House, Merger};
use lines::{Command, Place, WORDS};
use pages::Page;
use routing::open::{check_open, open_house};
use routing::route::MERGER;
use routing::{Play, answered, next_ask, settled, shown};
use script::{Ending, Script};
use spool::{ITEM, STORE, Spare};
use stream::{ALL_COPIES, copied, merged, start_copies, start_merger};

// What a line before an accepted `sites` leaves: the house, where it opens one. A refused `sites` leaves the next one possible.
fn opened(
    d: &mut Play,
    s: Place,
    words: &[u64; WORDS],
    page: &mut Page,
) -> Result<Option<House>, Ending> {
    let Command::Sites(n, given) = lines::told(s, words) else {
        answered(*d, page, Answer::Refused(MALFORMED))?;
        return Ok(None);
    };
    let keys = lines::table(s, words);
    if let Err(cause) = check_open(n, given, &keys) {
        answered(*d, page, Answer::Refused(cause.into()))?;
        return Ok(None);
    }
    d.sites = n;
    answered(*d, page, Answer::Done)?;
    Ok(Some(open_house(n, given, &keys)))
}

fn opening(d: &mut Play, script: &mut Script, page: &mut Page) -> Result<Option<House>, Ending> {
    shown(script, page)?;
    let mut words = [0u64; WORDS];
    let scan = script.next_scan(&mut words);
    d.event = d.event.wrapping_add(1);
    opened(d, scan?, &words, page)
}

// Reads up to an accepted `sites`, and answers the house that it opens.
fn until_sites(d: &mut Play, script: &mut Script, page: &mut Page) -> Result<House, Ending> {
    for _ in 0..u64::MAX {
        if let Some(house) = opening(d, script, page)? {
            return Ok(house);
        }
    }
    Err(Ending::End)
}

// Every line behind the accepted `sites`, with the house's sites and merger as they start.
fn turns(
    d: &mut Play,
    started: [Core; SITES],
    first: Merger,
    script: &mut Script,
    spare: &mut Spare,
    store: &mut [u64; STORE],
    page: &mut Page,
    live: &mut [u64; LIVES],
    history: &mut [u64; HISTORIES],
    base: &mut [u64; BASES],
    lists: &mut [u64; GATHERINGS],
    queues: &mut [u64; QUEUES],
    tables: &mut [u64; ALL_COPIES],
) -> Result<(), Ending>
    requires { length started ≡ sizes.sites }
{
    let mut out = [0u64; OUTGOING];
    let mut item = [0u64; ITEM];
    let mut sites = started;
    let mut g = first;
    for _ in 0..u64::MAX {
        let Some(a) = next_ask(d, script, spare, store, &mut item, page)? else {
            continue;
        };
        let i = a.place;
        let ended = if i < SITES {
            // A message apart from the other calls: one function for all is too long to be inlined, and the core would be copied to it.
            let o = if let Command::Take(_, _) = a.command {
                take_at(
                    sites[i],
                    i,
                    live,
                    history,
                    lists,
                    &item,
                    a.words(),
                    &mut out,
                )
            } else {
                at_site(sites[i], a.command, i, live, history, base, lists, &mut out)
            };
            sites[i] = o.core;
            settled(*d, a, o.answer, o.words, &out, spare, store, page)
        } else if i == MERGER {
            merged(*d, a, &mut g, spare, store, &item, queues, &mut out, page)
        } else {
            copied(*d, a, spare, store, &item, tables, &out, page)?;
            continue;
        };
        // The answers so far are shown even where the play ends here.
        if ended.is_err() {
            shown(script, page)?;
            return ended;
        }
    }
    Ok(())
}

// Everything behind the accepted `sites`.
fn rest(
    d: &mut Play,
    house: House,
    script: &mut Script,
    spare: &mut Spare,
    store: &mut [u64; STORE],
    page: &mut Page,
) -> Result<(), Ending> {
    let mut live = [0u64; LIVES];
    let mut history = [0u64; HISTORIES];
    let mut base = [0u64; BASES];
    let mut lists = [0u64; GATHERINGS];
    let mut queues = [0u64; QUEUES];
    let mut tables = [0u64; ALL_COPIES];
    let sites = start_sites(house, &mut live, &mut history, &mut base, &mut lists);
    let g = start_merger(house, &mut queues);
    start_copies(&mut tables);
    turns(
        d,
        sites,
        g,
        script,
        spare,
        store,
        page,
        &mut live,
        &mut history,
        &mut base,
        &mut lists,
        &mut queues,
        &mut tables,
    )
}

// Plays a script to its end, with what is under way beyond memory in the file of `spare`.
pub fn play(script: &mut Script, spare: &mut Spare, page: &mut Page) -> Result<(), Ending> {
    let mut d = Play { sites: 0, event: 0 };
    let house = until_sites(&mut d, script, page)?;
    let mut store = [0u64; STORE];
    rest(&mut d, house, script, spare, &mut store, page)
}
