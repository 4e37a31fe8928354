// The words of the merger's queues: 16 places of 57 words for each site, the head first, lent beside the merger.

#![tactic(auto)]

pub mod joined;
pub mod place;
pub mod pop;
pub mod possible;

pub use joined::write_merged;
pub use place::{place_at, read_head};
pub use pop::pop_queues;
pub use possible::merger_ok;
