// Whom a transaction is begun for (Q10.1).
pub const HOUSE: u64 = 0;

pub const PROOFING: u64 = 1;
