// Positions of the words of a message, of an entry, of a record, of a write, of a value, of a copy, of a part's keys, of a place of the
// live table and of a slot of the history.
use crate::sizes::{READS, WRITES};

pub const LENGTH: usize = 0;

pub const KIND: usize = 1;

pub const FROM: usize = 2;

pub const TO: usize = 3;

pub const CHANNEL: usize = 4;

pub const MESSAGE_TX: usize = 5;

pub const CLOCK: usize = 6;

pub const ARGUMENT: usize = 7;

pub const ENTRY_COUNT: usize = 8;

pub const ENTRY_OFFSET: usize = 9;

pub const ENTRY_TX: usize = 0;

pub const ENTRY_MASK: usize = 1;

pub const ENTRY_MARK: usize = 2;

pub const SITE: usize = 2;

pub const NUMBER: usize = 3;

pub const COORDINATOR: usize = 4;

pub const RECORD_TX: usize = 5;

pub const RECORD_MASK: usize = 6;

pub const WRITE_COUNT: usize = 7;

pub const WRITE_OFFSET: usize = 8;

pub const WRITE_KEY: usize = 0;

pub const WRITE_VALUE: usize = 1;

pub const VALUE_START: usize = 0;

pub const VALUE_LENGTH: usize = 1;

pub const LAST_NUMBER: usize = 0;

pub const LAST_COORDINATOR: usize = 1;

pub const KEYS_READ: usize = 0;

pub const KEYS_WROTE: usize = 1;

pub const KEYS_READS: usize = 2;

pub const KEYS_WRITES: usize = KEYS_READS + READS;

pub const KEYS_VALUES: usize = KEYS_WRITES + WRITES;

pub const PLACE_SNAPSHOT: usize = 0;

pub const PLACE_MASK: usize = 1;

pub const PLACE_NUMBER: usize = 2;

pub const PLACE_HEARD: usize = 3;

pub const PLACE_REASON: usize = 4;

pub const PLACE_LISTED: usize = 5;

pub const PLACE_DESK: usize = 6;

pub const PLACE_KEYS: usize = 7;

pub const SLOT_TX: usize = 0;

pub const SLOT_MASK: usize = 1;

pub const SLOT_NUMBER: usize = 2;

pub const SLOT_KEYS: usize = 3;
