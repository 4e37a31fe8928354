// Numbers of the causes of refusal (N3), in their order, and of the reasons of abort. UNKNOWN, FULL and SPENT are both.
// The outgoing buffer is too short.
pub const SHORT: u64 = 1;

// A site, key, desk, count or layout is impossible.
pub const MALFORMED: u64 = 2;

// The table of first keys is bad.
pub const BAD_TABLE: u64 = 22;

// The key or the message is for another site.
pub const ELSEWHERE: u64 = 3;

// The message is not the next on its channel.
pub const NOT_NEXT: u64 = 4;

// The transaction is not held here. In a VOTE: a PREPARE came for a transaction not held.
pub const UNKNOWN: u64 = 5;

// The call belongs to the coordinator, and this site is not it.
pub const NOT_COORDINATOR: u64 = 26;

// The stage of the transaction does not allow the call, or the enlisted site is in its mask.
pub const STAGE: u64 = 27;

// The commit request comes while a JOINED is outstanding.
pub const OUTSTANDING: u64 = 7;

// An install after the snapshot is forgotten.
pub const FORGOTTEN: u64 = 8;

// The key is held by another transaction.
pub const HELD: u64 = 9;

// The key has a version newer than the snapshot.
pub const NEWER: u64 = 10;

// The key would be the 17th distinct key that the part reads or writes, or the 5th that it writes for the proofing desk.
pub const TOO_MANY: u64 = 11;

// The value's start plus its length is above 2^64 − 1.
pub const TOO_LONG: u64 = 29;

// The site has 16 live subtransactions. As a reason: a JOINED said so.
pub const FULL: u64 = 12;

// A serial, a channel count or an install count is at its end. As a reason: the clock is.
pub const SPENT: u64 = 13;

// The record is not above the last one taken.
pub const BEHIND: u64 = 14;

// The part would be the 17th queued part.
pub const QUEUE_FULL: u64 = 15;

// The due record lacks a part, or its parts disagree.
pub const NOT_WHOLE: u64 = 16;

// There is nothing to install, merge, emit or replay.
pub const NOTHING: u64 = 17;

// The page length is 0. It has no place in that order: it stands behind 2 in a run, and before 2 on the way back (Q8.6).
pub const NO_PAGE: u64 = 28;

// Reason: a listed transaction is installed within the snapshot, and is marked or dependent (C37).
pub const CONFLICT: u64 = 18;

// Reason: what the list or the vote needs is forgotten (C29, C39).
pub const UNCERTAIN: u64 = 19;

// Reason: the transaction is abandoned (C48).
pub const ABANDONED: u64 = 20;
