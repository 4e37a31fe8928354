// Stages of a subtransaction. FREE marks a free place of the live table.
pub const FREE: u64 = 0;
// Begun: takes reads and writes.
pub const ACTIVE: u64 = 1;
// PREPARE taken, or the commit requested: its list is made.
pub const PREPARED: u64 = 2;
// Voted yes: in the queue with its mark.
pub const QUEUED: u64 = 3;
// Committed: in the queue with its commit number.
pub const DECIDED: u64 = 4;
// A participant that voted no and waits for ABORT.
pub const REJECTED: u64 = 5;
