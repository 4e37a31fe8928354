// A site's tables in lent words: parts and remembered installs read and written (S7 to S9).

#![tactic(auto)]

ghost use Rattle.std.specs.Prelude.{◌≡◌, ◌+◌, ◌*◌, ◌≤◌, ◌<◌, length, get_or};
ghost use Rattle.laws.specs.Overlay.{put_at};
ghost use Rattle.kinds.specs.Sizes as sizes;
ghost use Rattle.kinds.specs.State.{past_entry};
ghost use Rattle.rules.specs.Value.{value_words};
ghost use Rattle.rules.specs.House.{no_house};
ghost use Rattle.rules.specs.Live.{part_at};
ghost use Rattle.lent.specs.Rows.{flat};
ghost use Rattle.lent.specs.Layout.{words_from, values_from, keys_from, live_of, history_of, seat_of, keys_words, place_words, slot_words};
ghost use Rattle.lent.specs.Lent.{lent_ok, lent_house, lent_sites};
ghost use Rattle.lent.specs.Shape.{Sized, Shaped, ShapedEntry};

use kinds::sizes::{HISTORY_WORDS, LIVE, LIVE_WORDS, PLACE, READS, SITES, SLOT, VALUE, WRITES};
use kinds::word::{
    KEYS_READ, KEYS_READS, KEYS_VALUES, KEYS_WRITES, KEYS_WROTE, PLACE_DESK, PLACE_HEARD,
    PLACE_KEYS, PLACE_LISTED, PLACE_MASK, PLACE_NUMBER, PLACE_REASON, PLACE_SNAPSHOT, SLOT_KEYS,
    SLOT_MASK, SLOT_NUMBER, SLOT_TX,
};
use kinds::{Course, Entry, FRESH, House, Keys, Seat, Snapshot, Sub, Value};
use slices::copy_words;
use values::{put_value, value_at};

// The words of one list of keys: a part reads as many keys as it writes at most.
fn sixteen(w: &[u64], at: usize) -> [u64; READS]
    requires { at + sizes.reads ≤ length w.now }
    ensures { result ≡ words_from w.now at sizes.reads }
{
    let mut r = [0u64; READS];
    r.copy_from_slice(&w[at..at + READS]);
    r
}

// The values of the keys written.
// Stays: beside `sixteen` it is no twin: words are copied as they lie, a value is put together from two of them.
fn sixteen_values(w: &[u64], at: usize) -> [Value; WRITES]
    requires { at + sizes.value * sizes.writes ≤ length w.now }
    ensures { result ≡ values_from w.now at sizes.writes }
{
    let mut r = [FRESH; WRITES];
    for i in 0..WRITES {
        r[i] = value_at(w, at + VALUE * i);
    }
    r
}

// A part's keys from word o on.
pub fn keys_at(w: &[u64], o: usize) -> Keys
    requires { o + sizes.keyset ≤ length w.now }
    ensures { result ≡ keys_from w.now o }
{
    Keys {
        read: w[o + KEYS_READ] as usize,
        wrote: w[o + KEYS_WROTE] as usize,
        reads: sixteen(w, o + KEYS_READS),
        writes: sixteen(w, o + KEYS_WRITES),
        values: sixteen_values(w, o + KEYS_VALUES),
    }
}

// The part at a place of the live table.
pub fn part_at(seats: [Seat; LIVE], w: &[u64], place: usize) -> Sub
    requires { (length w.now ≡ sizes.live_words) × (place < sizes.live) }
    ensures { result ≡ part_at (live_of seats w.now) place }
{
    let seat = seats[place];
    let at = PLACE * place;
    let snapshot = Snapshot {
        installs: w[at + PLACE_SNAPSHOT],
    };
    let course = Course {
        stage: seat.stage,
        mask: w[at + PLACE_MASK],
        number: w[at + PLACE_NUMBER],
        heard: w[at + PLACE_HEARD],
        reason: w[at + PLACE_REASON],
        listed: w[at + PLACE_LISTED] as usize,
    };
    Sub {
        tx: seat.tx,
        desk: w[at + PLACE_DESK],
        snapshot,
        course,
        keys: keys_at(w, at + PLACE_KEYS),
    }
}

// The install in a slot of the history.
pub fn entry_at(h: &[u64], slot: usize) -> Entry
    requires { (length h.now ≡ sizes.history_words) × (slot < sizes.history) }
    ensures { result ≡ get_or (history_of h.now) slot past_entry }
{
    let at = SLOT * slot;
    Entry {
        tx: h[at + SLOT_TX],
        mask: h[at + SLOT_MASK],
        number: h[at + SLOT_NUMBER],
        keys: keys_at(h, at + SLOT_KEYS),
    }
}

// Lays a list of keys from word `at` on,
fn lay(out: &mut [u64], at: usize, a: [u64; READS])
    requires { at + sizes.reads ≤ length out.old }
    ensures { (length a ≡ sizes.reads) × (out.new ≡ put_at at out.old a) }
{
    copy_words(&mut out[at..], &a);
}

// and the values of the keys written.
fn lay_values(out: &mut [u64], at: usize, a: [Value; WRITES])
    requires { at + sizes.value * sizes.writes ≤ length out.old }
    ensures { (length a ≡ sizes.writes) × (out.new ≡ put_at at out.old (flat value_words a)) }
{
    for i in 0..WRITES {
        put_value(out, at + VALUE * i, a[i]);
    }
}

// Lays a part's keys from word o on.
fn lay_keys(out: &mut [u64], o: usize, b: Keys)
    requires { o + sizes.keyset ≤ length out.old }
    ensures { Sized b × (out.new ≡ put_at o out.old (keys_words b)) }
{
    out[o + KEYS_READ] = b.read as u64;
    out[o + KEYS_WROTE] = b.wrote as u64;
    lay(out, o + KEYS_READS, b.reads);
    lay(out, o + KEYS_WRITES, b.writes);
    lay_values(out, o + KEYS_VALUES, b.values);
}

// Writes a part, but for its seat, to its place.
pub fn put_part(w: &mut [u64], place: usize, b: Sub)
    requires { (length w.old ≡ sizes.live_words) × (place < sizes.live) }
    ensures { Shaped b × (w.new ≡ put_at (sizes.place * place) w.old (place_words b)) }
{
    let at = PLACE * place;
    w[at + PLACE_SNAPSHOT] = b.snapshot.installs;
    w[at + PLACE_MASK] = b.course.mask;
    w[at + PLACE_NUMBER] = b.course.number;
    w[at + PLACE_HEARD] = b.course.heard;
    w[at + PLACE_REASON] = b.course.reason;
    w[at + PLACE_LISTED] = b.course.listed as u64;
    w[at + PLACE_DESK] = b.desk;
    lay_keys(w, at + PLACE_KEYS, b.keys);
}

// Writes an install to its slot.
pub fn put_entry(h: &mut [u64], slot: usize, e: Entry)
    requires { (length h.old ≡ sizes.history_words) × (slot < sizes.history) }
    ensures { ShapedEntry e × (h.new ≡ put_at (sizes.slot * slot) h.old (slot_words e)) }
{
    let at = SLOT * slot;
    h[at + SLOT_TX] = e.tx;
    h[at + SLOT_MASK] = e.mask;
    h[at + SLOT_NUMBER] = e.number;
    lay_keys(h, at + SLOT_KEYS, e.keys);
}

// What the live table keeps of a part by value.
pub fn seat_of(b: Sub) -> Seat
    ensures { result ≡ seat_of b }
{
    Seat {
        tx: b.tx,
        stage: b.course.stage,
    }
}

// A house that no call accepts.
// Stays: the contracts of `lent_house` and of the calls that stand on it name the rules' house of no sites.
pub fn no_house() -> House
    ensures { result ≡ no_house }
{
    House {
        sites: 0,
        firsts: [0; SITES],
    }
}

// Whether live and history words have the lengths of the tables.
fn lent_ok(live: usize, history: usize) -> bool
    ensures { result ≡ lent_ok live history }
{
    live == LIVE_WORDS && history == HISTORY_WORDS
}

// The house of a site whose live and history words have these lengths,
pub fn lent_house(o: House, live: usize, history: usize) -> House
    ensures { result ≡ lent_house o live history }
{
    if lent_ok(live, history) {
        o
    } else {
        no_house()
    }
}

// and the number of sites at its start.
pub fn lent_sites(sites: u64, live: usize, history: usize) -> u64
    ensures { result ≡ lent_sites sites live history }
{
    if lent_ok(live, history) { sites } else { 0 }
}
