// What stands around a probe's calls: a line is read, what a call wrote is kept, and its outcome printed.
#![tactic(auto)]

ghost use Rattle.std.specs.Prelude.{◌<◌, IfSome};
ghost use Rattle.kinds.specs.Sizes as sizes;

use effects::{COPY_PLACE, Done, Lent, TABLE, is_logged};
use hand::store::{keep_letters, keep_record};
use kinds::sizes::{BASE, HISTORY_WORDS, LISTS, LIVE_WORDS, OUTGOING, QUEUES, SITES};
use kinds::{Answer, Key};
use lines::WORDS;
use numbers::table_ok;
use pages::{Page, is_refused};
use pieces::front;
use script::{Ending, Script};
use verbs::{Group, Line, remark, told, verb};

// Words for the outgoing buffer, more than any call wants.
pub const ROOM: usize = 8192;

// The table of first keys at the beginning of a probe.
const EVEN: [Key; TABLE] = [0, 256, 512, 768, 1024, 1280, 1536, 1792, 2048];

// A probe under way: `held` words are in hand, `kept` of the store are used.
#[derive(Clone, Copy)]
pub struct Work {
    pub event: u64,
    pub line: Line,
    pub lent: Lent,
    pub held: usize,
    pub kept: usize,
    pub sites: u64,
}

// Every table as long as it should be, with these first keys.
fn all_lent(firsts: [Key; TABLE]) -> Lent {
    Lent {
        room: OUTGOING,
        live: LIVE_WORDS,
        history: HISTORY_WORDS,
        base: BASE,
        lists: LISTS,
        queues: QUEUES,
        copy: kinds::sizes::COPY,
        table: None,
        firsts,
    }
}

// What a house begins with: the first keys stay as they are set.
pub fn lent_at_start(w: Work) -> Lent {
    all_lent(w.lent.firsts)
}

pub fn begun() -> Work {
    Work {
        event: 0,
        line: remark(),
        lent: all_lent(EVEN),
        held: 0,
        kept: 0,
        sites: 1,
    }
}

// Whether the line ends the house.
pub fn is_over(w: Work) -> bool {
    w.line.group == Group::House
}

// Whether the line is for a site.
pub fn is_for_site(w: Work) -> bool {
    w.line.group == Group::Site
}

// Whether a house of n sites starts with the first n words of the table (Q3.3).
fn starts(n: u64, firsts: [Key; TABLE]) -> bool {
    1 <= n && n <= SITES as u64 && table_ok(n, &firsts)
}

// Where a house does not start, its line is a remark.
fn opened(l: Line, lent: Lent) -> Line {
    if l.group != Group::House || starts(l.a, lent.firsts) {
        return l;
    }
    let mut m = l;
    m.group = Group::Nobody;
    m
}

fn sites_of(l: Line, now: u64) -> u64 {
    if l.group == Group::House { l.a } else { now }
}

// Reads a line.
pub fn read_line(w: &mut Work, script: &mut Script) -> Result<(), Ending> {
    let mut words = [0u64; WORDS];
    let place = script.next_scan(&mut words)?;
    let line = opened(told(place, &words), w.lent);
    w.event = w.event.wrapping_add(1);
    w.line = line;
    w.sites = sites_of(line, w.sites);
    Ok(())
}

// A poke's outcome has no numbers: what it leaves is the caller's own affair.
fn is_poke(v: u64) -> bool {
    matches!(
        v,
        verb::SITE
            | verb::LIVE
            | verb::PAST
            | verb::LIST
            | verb::MERGER
            | verb::SOURCE
            | verb::QUEUED
            | verb::COPIED
    )
}

pub fn answered(w: Work, page: &mut Page, a: Answer) -> Result<(), Ending> {
    page.say(w.event, a)
}

// Prints a call's outcome: the words written, the buffer, whether the state is the same, the state.
pub fn told_of(w: Work, page: &mut Page, d: Done) -> Result<(), Ending> {
    if is_poke(w.line.verb) {
        return answered(w, page, d.answer);
    }
    page.say_with(
        w.event,
        d.answer,
        d.words as u64,
        d.buffer,
        u64::from(d.same),
        d.state,
    )
}

// Keeps what an accepted call wrote.
pub fn keep(w: &mut Work, d: Done, store: &mut [u64], out: &[u64]) {
    if is_refused(d.answer) || d.words == 0 {
        return;
    }
    let words = front(out, d.words);
    w.kept = if is_logged(w.line.verb) {
        keep_record(store, w.kept, words)
    } else {
        keep_letters(store, w.kept, words)
    };
}

fn least(n: u64, most: usize) -> usize {
    n.min(most as u64) as usize
}

// The words that a run is lent: as many as its line says, at most all of the outgoing buffer. Other conversions are lent none.
pub fn room_of(l: Line) -> usize {
    if l.verb == verb::RUN {
        return least(l.b, ROOM);
    }
    0
}

// A length lent from now on, at most one more than it should be.
fn lend(lent: Lent, verb: u64, n: u64) -> Lent {
    let mut t = lent;
    match verb {
        verb::ROOM => t.room = least(n, ROOM),
        verb::PLACES => t.live = least(n, LIVE_WORDS + 1),
        verb::SLOTS => t.history = least(n, HISTORY_WORDS + 1),
        verb::BASE => t.base = least(n, BASE + 1),
        verb::LISTS => t.lists = least(n, LISTS + 1),
        verb::QUEUES => t.queues = least(n, QUEUES + 1),
        verb::TABLES => t.table = Some(least(n, TABLE)),
        _ => t.copy = least(n, COPY_PLACE),
    }
    t
}

// First key i, from 1, set from now on. Another i sets nothing.
fn with_first(lent: Lent, i: u64, key: Key) -> Lent {
    if i < 1 || i > TABLE as u64 {
        return lent;
    }
    let mut t = lent;
    t.firsts[(i - 1) as usize] = key;
    t
}

fn lent_by(lent: Lent, l: Line) -> Lent {
    if l.verb == verb::TABLE {
        return with_first(lent, l.a, l.b);
    }
    lend(lent, l.verb, l.a)
}

pub fn lend_anew(w: &mut Work) {
    w.lent = lent_by(w.lent, w.line);
}

// The place of the site that a line names, where the house has it.
pub fn place_of(w: Work) -> Option<usize>
    ensures { IfSome result (λ place. place < sizes.sites) }
{
    let site = w.line.a;
    if site < 1 || site > w.sites || site > SITES as u64 {
        return None;
    }
    Some((site - 1) as usize)
}
