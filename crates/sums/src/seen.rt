// The checksum of what the rules fix of a site: its parts and its history as sets, without what a stage does not use.
use crate::{more, of_house, of_set, of_words, of_writes, three_more, together};
use kinds::sizes::{HISTORY, KEYSET, LIVE, PLACE, READS, SLOT, VALUE, WRITES};
use kinds::stage::{ACTIVE, DECIDED, FREE, QUEUED};
use kinds::word::{
    KEYS_READ, KEYS_READS, KEYS_VALUES, KEYS_WRITES, KEYS_WROTE, PLACE_DESK, PLACE_HEARD,
    PLACE_KEYS, PLACE_LISTED, PLACE_MASK, PLACE_NUMBER, PLACE_REASON, PLACE_SNAPSHOT, SLOT_KEYS,
    SLOT_MASK, SLOT_TX,
};
use kinds::{Core, Course, Seat};
use numbers::coordinator_of;
use pieces::{piece, word};

fn keys(h: u64, ws: &[u64]) -> u64 {
    let reads = piece(ws, KEYS_READS, READS);
    let writes = piece(ws, KEYS_WRITES, WRITES);
    let values = piece(ws, KEYS_VALUES, VALUE * WRITES);
    let a = more(h, of_set(reads, word(ws, KEYS_READ)));
    more(a, of_writes(writes, values, word(ws, KEYS_WROTE)))
}

// The course of the part whose seat and other words these are.
fn course_of(a: Seat, ws: &[u64]) -> Course {
    Course {
        stage: a.stage,
        mask: word(ws, PLACE_MASK),
        number: word(ws, PLACE_NUMBER),
        heard: word(ws, PLACE_HEARD),
        reason: word(ws, PLACE_REASON),
        listed: word(ws, PLACE_LISTED) as usize,
    }
}

// A participant has no mask before PREPARE.
fn mask_of(c: Course, coordinates: bool) -> u64 {
    if coordinates || c.stage != ACTIVE {
        return c.mask;
    }
    0
}

// The mark or the commit number.
fn number_of(c: Course) -> u64 {
    match c.stage {
        QUEUED | DECIDED => c.number,
        _ => 0,
    }
}

// The replies of this round are the coordinator's.
fn heard_of(c: Course, coordinates: bool) -> u64 {
    if coordinates && c.stage <= QUEUED {
        return c.heard;
    }
    0
}

fn reason_of(c: Course, coordinates: bool) -> u64 {
    if coordinates && c.stage == ACTIVE {
        return c.reason;
    }
    0
}

// The part whose seat and other words these are.
fn sub(own: u64, s: Seat, ws: &[u64]) -> u64 {
    let c = course_of(s, ws);
    if c.stage == FREE {
        return 0;
    }
    let coordinates = coordinator_of(s.tx) == own;
    let a = three_more(3, s.tx, word(ws, PLACE_SNAPSHOT), c.stage);
    let d = three_more(
        a,
        mask_of(c, coordinates),
        number_of(c),
        heard_of(c, coordinates),
    );
    let e = more(d, reason_of(c, coordinates));
    keys(more(e, word(ws, PLACE_DESK)), piece(ws, PLACE_KEYS, KEYSET))
}

fn live(own: u64, seats: &[Seat; LIVE], ws: &[u64]) -> u64 {
    let mut sum: u64 = 0;
    for (i, s) in seats.iter().enumerate() {
        sum = together(sum, sub(own, *s, piece(ws, PLACE * i, PLACE)));
    }
    sum
}

// Install n.
fn entry(n: u64, ws: &[u64]) -> u64 {
    let tx = word(ws, SLOT_TX);
    if tx == 0 {
        return 0;
    }
    keys(
        three_more(4, n, tx, word(ws, SLOT_MASK)),
        piece(ws, SLOT_KEYS, KEYSET),
    )
}

// The last installs, up to 32.
fn history(ws: &[u64], installs: u64) -> u64 {
    let mut sum: u64 = 0;
    for back in 0..installs.min(HISTORY as u64) {
        let n = installs - back;
        let slot = ((n - 1) % HISTORY as u64) as usize;
        sum = together(sum, entry(n, piece(ws, SLOT * slot, SLOT)));
    }
    sum
}

// The site of a core, with its live, its history and its base words.
pub fn site(p: Core, l: &[u64], h: &[u64], base: &[u64]) -> u64 {
    let c = p.counters;
    let a = three_more(of_house(p.house), c.own, c.clock, c.serial);
    let sent = of_words(more(a, c.installs), &p.channels.sent);
    let b = of_words(sent, &p.channels.taken);
    let d = more(more(b, live(c.own, &p.seats, l)), history(h, c.installs));
    of_words(d, base)
}
