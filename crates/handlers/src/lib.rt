// A handler for each kind of message, for a transaction held at a place.

#![tactic(auto)]

pub mod codes;
pub mod coordinator;
pub mod gather;
pub mod participant;
