// Every size of a house (S1 to S18), and what follows from them.

// Sites of the largest house.
pub const SITES: usize = 8;
// Keys, and those of one site.
pub const KEYS: usize = 2048;

pub const SITE_KEYS: u64 = 256;
// A transaction number is coordinator × SERIALS + serial.
pub const SERIALS: u64 = 4294967296;

pub const LAST_SERIAL: u64 = SERIALS - 1;
// The last number a 64-bit count or clock reaches.
pub const LAST: u64 = 18446744073709551615;

// Live subtransactions of a site, and the keys that each may read and write.
pub const LIVE: usize = 16;

pub const READS: usize = 16;

pub const WRITES: usize = 16;
// Keys that a part for the proofing desk may write.
pub const PROOFING_WRITES: usize = 4;
// Installed ones that a site remembers.
pub const HISTORY: usize = 32;
// Parts that the merger queues for a site.
pub const QUEUE: usize = 16;

// Words of a message: header, then entries. A site lists at most the other live and the remembered.
pub const MESSAGE_HEADER: usize = 10;

pub const ENTRY: usize = 3;

pub const CONC_ENTRIES: usize = LIVE - 1 + HISTORY;

pub const CERT_ENTRIES: usize = CONC_ENTRIES * SITES;
// Messages to all other sites, each with the longest list.
pub const OUTGOING: usize = (SITES - 1) * (MESSAGE_HEADER + ENTRY * CERT_ENTRIES);
// One place of the gathered lists, and all.
pub const GATHERED: usize = ENTRY * CERT_ENTRIES;

pub const LISTS: usize = LIVE * GATHERED;

// Words of a value: start and length.
pub const VALUE: usize = 2;
// Words of a record: header, then writes, each a key and its value.
pub const RECORD_HEADER: usize = 9;

pub const WRITE: usize = 1 + VALUE;

pub const PART: usize = RECORD_HEADER + WRITE * WRITES;

pub const MERGED_WRITES: usize = WRITES * SITES;

pub const MERGED: usize = RECORD_HEADER + WRITE * MERGED_WRITES;

// Words of a site's queue at the merger, and of all.
pub const SITE_QUEUE: usize = QUEUE * PART;

pub const QUEUES: usize = SITES * SITE_QUEUE;
// Words of a site's base values: one value for each key.
pub const BASE: usize = VALUE * KEYS;
// Words of a copy: last number, last coordinator, then one value for each key.
pub const COPY_HEADER: usize = 2;

pub const COPY: usize = COPY_HEADER + BASE;
// Words that a read of a copy writes to bytes: the value, then the copy's pair.
pub const ANSWER: usize = VALUE + COPY_HEADER;

// Words of a part's keys: two counts, the keys read, the keys written and their values.
pub const KEYSET: usize = 2 + READS + WRITES + VALUE * WRITES;
// Words of a place of the live table beside its seat: snapshot, course and desk, then the keys.
pub const PLACE: usize = 7 + KEYSET;

pub const LIVE_WORDS: usize = LIVE * PLACE;
// Words of a slot of the history: transaction, mask and number, then the keys.
pub const SLOT: usize = 3 + KEYSET;

pub const HISTORY_WORDS: usize = HISTORY * SLOT;
