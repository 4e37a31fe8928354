// Messages in lent words: their check, their header as a value, and the writers.

#![tactic(auto)]

mod entries;
mod head;
mod layout;
mod send;
mod write;

pub use entries::entries_possible;
pub use layout::{message_ok, read_head};
pub use send::{broadcast, counts_low, is_recipient, step_recipients};
pub use write::write_message;
