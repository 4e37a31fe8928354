// The state and the CERT for which a message asks the most work. The second site of a house of eight stands in the words of site 2:
//
// - Each live place holds a prepared part that read and wrote 16 keys. Its list has all 376 entries, since seven sites were heard.
// - Forty installs leave a full history of parts that read and wrote 16 keys, none of them a live part's. The snapshot has seen all.
// - The CERT is for the part at the last place. It has 376 entries: 327 that do not name this site, then the 16 live parts, then the
//   32 installs, then one that names this site and has no record here.
//
// The vote so compares the keys of every install, looks up every entry that names this site, and is 19 by the last entry.
ghost use Rattle.std.specs.Prelude.{◌≤◌};

use kinds::kind::CERT;
use kinds::sizes::{
    CERT_ENTRIES, ENTRY, GATHERED, HISTORY, KEYSET, LIVE, MESSAGE_HEADER, PLACE, READS, SERIALS,
    SITE_KEYS, SITES, SLOT, VALUE, WRITES,
};
use kinds::stage::PREPARED;
use kinds::{Channels, Core, Counters, House, Key, Seat, word};
use pieces::{piece_mut, put};
use rounds::play::{Store, Words};
use rounds::step::half;
use slices::copy_words;

// The coordinator that the CERT comes from, the site, its installs and its clock.
const COORDINATOR: u64 = 1;

const OWN: u64 = 2;

const INSTALLS: u64 = 40;

const CLOCK: u64 = 1000;

// The first keys of the house.
const EVEN: [Key; SITES] = [0, 256, 512, 768, 1024, 1280, 1536, 1792];

// All sites, and all but this one.
const ALL: u64 = 255;

const OTHERS: u64 = 253;

// The first key of the live parts, and of the installed ones.
const LIVE_KEYS: u64 = SITE_KEYS;

const PAST_KEYS: u64 = SITE_KEYS + 32;

// The first entries that name this site: those of the live parts, and of the installs.
const OF_LIVE: usize = CERT_ENTRIES - 1 - HISTORY - LIVE;

const OF_PAST: usize = OF_LIVE + LIVE;

// Words of the CERT.
const CERT_WORDS: usize = MESSAGE_HEADER + GATHERED;

// The transaction of an entry.
fn tx_at(i: usize) -> u64
    requires { i ≤ 1000 }
{
    COORDINATOR * SERIALS + 1 + i as u64
}

fn mask_at(i: usize) -> u64 {
    if i < OF_LIVE {
        return OTHERS;
    }
    ALL
}

fn put_entry(e: &mut [u64], i: usize)
    requires { i ≤ 1000 }
{
    put(e, word::ENTRY_TX, tx_at(i));
    put(e, word::ENTRY_MASK, mask_at(i));
    put(e, word::ENTRY_MARK, 0);
}

fn put_entries(es: &mut [u64]) {
    for i in 0..CERT_ENTRIES {
        put_entry(piece_mut(es, ENTRY * i, ENTRY), i);
    }
}

// Sixteen keys read and the next sixteen written, each with a start and a length.
fn put_keys(w: &mut [u64], first: u64)
    requires { first ≤ 1000 }
{
    put(w, word::KEYS_READ, READS as u64);
    put(w, word::KEYS_WROTE, WRITES as u64);
    for i in 0..WRITES {
        let value = word::KEYS_VALUES + VALUE * i;
        put(w, word::KEYS_READS + i, first + i as u64);
        put(w, word::KEYS_WRITES + i, first + 16 + i as u64);
        put(w, value + word::VALUE_START, first + i as u64);
        put(w, value + word::VALUE_LENGTH, 1 + i as u64);
    }
}

fn put_place(w: &mut [u64]) {
    put(w, word::PLACE_SNAPSHOT, INSTALLS);
    put(w, word::PLACE_MASK, ALL);
    put(w, word::PLACE_NUMBER, 0);
    put(w, word::PLACE_HEARD, OTHERS);
    put(w, word::PLACE_REASON, 0);
    put(w, word::PLACE_LISTED, CERT_ENTRIES as u64);
    put_keys(piece_mut(w, word::PLACE_KEYS, KEYSET), LIVE_KEYS);
}

fn put_slot(w: &mut [u64], i: usize)
    requires { i ≤ 32 }
{
    put(w, word::SLOT_TX, tx_at(OF_PAST + i));
    put(w, word::SLOT_MASK, ALL);
    put(w, word::SLOT_NUMBER, CLOCK);
    put_keys(piece_mut(w, word::SLOT_KEYS, KEYSET), PAST_KEYS);
}

fn put_live(live: &mut [u64], lists: &mut [u64]) {
    for i in 0..LIVE {
        put_place(piece_mut(live, PLACE * i, PLACE));
        put_entries(piece_mut(lists, GATHERED * i, GATHERED));
    }
}

fn put_history(history: &mut [u64]) {
    for i in 0..HISTORY {
        put_slot(piece_mut(history, SLOT * i, SLOT), i);
    }
}

fn seats() -> [Seat; LIVE] {
    let mut all = [Seat { tx: 0, stage: 0 }; LIVE];
    for (i, seat) in all.iter_mut().enumerate() {
        *seat = Seat {
            tx: tx_at(OF_LIVE + i),
            stage: PREPARED,
        };
    }
    all
}

fn core() -> Core {
    Core {
        house: House {
            sites: SITES as u64,
            firsts: EVEN,
        },
        counters: Counters {
            own: OWN,
            clock: CLOCK,
            serial: 0,
            installs: INSTALLS,
        },
        channels: Channels {
            sent: [0; SITES],
            taken: [0; SITES],
        },
        seats: seats(),
    }
}

// The words of the CERT before its entries.
fn cert_head() -> [u64; MESSAGE_HEADER] {
    let mut head = [0u64; MESSAGE_HEADER];
    head[word::LENGTH] = CERT_WORDS as u64;
    head[word::KIND] = CERT;
    head[word::FROM] = COORDINATOR;
    head[word::TO] = OWN;
    head[word::CHANNEL] = 1;
    head[word::MESSAGE_TX] = tx_at(OF_PAST - 1);
    head[word::ENTRY_COUNT] = CERT_ENTRIES as u64;
    head[word::ENTRY_OFFSET] = MESSAGE_HEADER as u64;
    head
}

fn put_head(m: &mut [u64]) {
    let head = cert_head();
    let front = piece_mut(m, 0, MESSAGE_HEADER);
    if front.len() == MESSAGE_HEADER {
        copy_words(front, &head);
    }
}

fn put_cert(m: &mut [u64]) {
    put_head(m);
    put_entries(piece_mut(m, MESSAGE_HEADER, GATHERED));
}

fn put_tables(w: &mut Words) {
    put_live(half(&mut w.live, 1), half(&mut w.lists, 1));
    put_history(half(&mut w.history, 1));
}

// The store with that site in the place of site 2, and the CERT as the message to take.
pub fn with_worst(st: Store, w: &mut Words) -> Store {
    put_tables(w);
    put_cert(&mut w.held);
    let mut t = st;
    t.two = core();
    t.words = CERT_WORDS;
    t
}
