// Saves over two sites, with the merger and a copy, call by call.
#![tactic(auto)]

pub mod play;
pub mod step;
