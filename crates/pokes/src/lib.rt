// Pokes: one field of a state set to any number.
#![tactic(auto)]

mod houses;
mod sites;
mod streams;

pub use sites::poke_site;
pub use streams::{poke_copy, poke_merger};
