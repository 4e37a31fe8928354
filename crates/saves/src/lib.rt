// The coordinator's calls that end a transaction: commit and abandon.

#![tactic(auto)]

pub mod abandon;
mod codes;
pub mod commit;
