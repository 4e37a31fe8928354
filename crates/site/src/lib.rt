// The calls of a site that send at most one message: start, begin, enlist, read, write.

#![tactic(auto)]

pub mod access;
pub mod begin;
pub mod enlist;
pub mod start;
