// A site's part in certification: the list of transactions concurrent with a part, and its vote on the joined lists.

#![tactic(auto)]

mod list;
mod recorded;
mod vote;

pub use list::concurrent;
pub use vote::vote_of;
