// The steps of a part's course (C3 to C50), on the part and its site's counters and channels.

#![tactic(auto)]

pub mod channels;
pub mod coordinator;
pub mod participant;
pub mod send;
pub mod turn;
