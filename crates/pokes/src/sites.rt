// Pokes of a site.
ghost use Rattle.std.specs.Prelude.{◌+◌, ◌≤◌, ◌<◌};
ghost use Rattle.kinds.specs.Sizes as sizes;

use crate::houses::poke_house;
use kinds::sizes::{GATHERED, HISTORY, KEYSET, LIVE, PLACE, SITES, SLOT, VALUE, WRITES};
use kinds::{Answer, Channels, Core, Counters, Refusal, Reply, Seat, word};
use pieces::put;
use verbs::{Line, verb};

// Fields of a site that are numbers, and those that count what is sent to its first site and what is taken from it.
const OWN: u64 = 1;

const CLOCK: u64 = 2;

const SERIAL: u64 = 3;

const INSTALLS: u64 = 4;

const SENT: u64 = 11;

const TAKEN: u64 = 21;

// Fields of a part and of an installed one.
const TX: u64 = 0;

const SNAPSHOT: u64 = 1;

const STAGE: u64 = 2;

const MASK: u64 = 3;

const NUMBER: u64 = 4;

const HEARD: u64 = 5;

const REASON: u64 = 6;

const LISTED: u64 = 7;

const READ: u64 = 8;

const WROTE: u64 = 9;

const DESK: u64 = 10;

// A key, or a value's start or length, is its group times STEP and its place.
const STEP: u64 = 100;

const KEYS_READ: u64 = 1;

const KEYS_WRITTEN: u64 = 2;

const STARTS: u64 = 3;

const LENGTHS: u64 = 4;

fn counters(c: Counters, field: u64, v: u64) -> Counters {
    let mut d = c;
    match field {
        OWN => {
            d.own = v;
            d
        }
        CLOCK => {
            d.clock = v;
            d
        }
        SERIAL => {
            d.serial = v;
            d
        }
        INSTALLS => {
            d.installs = v;
            d
        }
        _ => d,
    }
}

fn channels(c: Channels, field: u64, v: u64) -> Channels {
    let mut d = c;
    if field < SENT {
        return d;
    }
    if field < SENT + SITES as u64 {
        let i = (field - SENT) as usize;
        d.sent[i] = v;
        return d;
    }
    if field < TAKEN {
        return d;
    }
    if field < TAKEN + SITES as u64 {
        let i = (field - TAKEN) as usize;
        d.taken[i] = v;
        return d;
    }
    d
}

// The word of a group at a place; KEYSET where there is none.
fn group_word(group: u64, place: usize) -> usize
    requires { place < sizes.writes }
    ensures { result ≤ sizes.keyset }
{
    let value = word::KEYS_VALUES + VALUE * place;
    match group {
        KEYS_READ => word::KEYS_READS + place,
        KEYS_WRITTEN => word::KEYS_WRITES + place,
        STARTS => value + word::VALUE_START,
        LENGTHS => value + word::VALUE_LENGTH,
        _ => KEYSET,
    }
}

// The word of a field among those of a part's keys; KEYSET where there is none.
fn keys_word(field: u64) -> usize
    ensures { result ≤ sizes.keyset }
{
    if field == READ {
        return word::KEYS_READ;
    }
    if field == WROTE {
        return word::KEYS_WROTE;
    }
    let place = field % STEP;
    if WRITES as u64 <= place {
        return KEYSET;
    }
    group_word(field / STEP, place as usize)
}

// The word of a field among those of a place; PLACE where there is none.
fn place_word(field: u64) -> usize
    ensures { result ≤ sizes.place }
{
    match field {
        SNAPSHOT => word::PLACE_SNAPSHOT,
        MASK => word::PLACE_MASK,
        NUMBER => word::PLACE_NUMBER,
        HEARD => word::PLACE_HEARD,
        REASON => word::PLACE_REASON,
        LISTED => word::PLACE_LISTED,
        DESK => word::PLACE_DESK,
        _ => word::PLACE_KEYS + keys_word(field),
    }
}

// The word of a field among those of a slot; SLOT where there is none.
fn slot_word(field: u64) -> usize
    ensures { result ≤ sizes.slot }
{
    match field {
        TX => word::SLOT_TX,
        MASK => word::SLOT_MASK,
        NUMBER => word::SLOT_NUMBER,
        _ => word::SLOT_KEYS + keys_word(field),
    }
}

fn seat(a: Seat, field: u64, v: u64) -> Seat {
    let mut b = a;
    match field {
        TX => {
            b.tx = v;
            b
        }
        STAGE => {
            b.stage = v;
            b
        }
        _ => b,
    }
}

fn done(p: Core) -> Reply {
    Reply {
        answer: Answer::Done,
        words: 0,
        core: p,
    }
}

fn refused(p: Core, cause: Refusal) -> Reply {
    Reply {
        answer: Answer::Refused(cause.into()),
        words: 0,
        core: p,
    }
}

fn poke_counts(p: Core, field: u64, v: u64) -> Reply {
    let mut q = p;
    let h = poke_house(p.house, field, v);
    let c = counters(p.counters, field, v);
    let d = channels(p.channels, field, v);
    q.house = h;
    q.counters = c;
    q.channels = d;
    done(q)
}

// A word of the part at a place, if the field is one.
fn put_part(live: &mut [u64], place: usize, field: u64, v: u64) {
    let i = place_word(field);
    if place < LIVE && i < PLACE {
        put(live, PLACE * place + i, v);
    }
}

// The seat or a word of the part of `tx`.
fn poke_live(p: Core, live: &mut [u64], tx: u64, field: u64, v: u64) -> Reply {
    let Some(place) = live::place_of(p.seats, tx) else {
        return refused(p, Refusal::Unknown);
    };
    put_part(live, place, field, v);
    let mut q = p;
    q.seats[place] = seat(p.seats[place], field, v);
    done(q)
}

// A word of install n, or of where it would stand.
fn poke_past(p: Core, history: &mut [u64], n: u64, field: u64, v: u64) -> Reply {
    if n == 0 {
        return refused(p, Refusal::Malformed);
    }
    let slot = ((n - 1) % HISTORY as u64) as usize;
    let i = slot_word(field);
    if i < SLOT {
        put(history, SLOT * slot + i, v);
    }
    done(p)
}

// A word of the gathered list of a place.
fn put_listed(lists: &mut [u64], place: usize, i: u64, v: u64) {
    if place < LIVE && i < GATHERED as u64 {
        put(lists, place * GATHERED + i as usize, v);
    }
}

// A word of the gathered list of the part of `tx`.
fn poke_list(p: Core, lists: &mut [u64], tx: u64, i: u64, v: u64) -> Reply {
    let Some(place) = live::place_of(p.seats, tx) else {
        return refused(p, Refusal::Unknown);
    };
    put_listed(lists, place, i, v);
    done(p)
}

pub fn poke_site(
    p: Core,
    live: &mut [u64],
    history: &mut [u64],
    lists: &mut [u64],
    l: Line,
) -> Reply {
    let v = l.verb;
    match v {
        verb::SITE => poke_counts(p, l.b, l.c),
        verb::LIVE => poke_live(p, live, l.b, l.c, l.d),
        verb::PAST => poke_past(p, history, l.b, l.c, l.d),
        verb::LIST => poke_list(p, lists, l.b, l.c, l.d),
        _ => refused(p, Refusal::Malformed),
    }
}
