// Records in lent words: the checks of the three kinds, the header as a value, and the writer.

#![tactic(auto)]

mod head;
mod layout;
mod write;
mod writes;

pub use layout::{merged_ok, part_ok, read_record, state_ok};
pub use write::write_record;
