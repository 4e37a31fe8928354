// The twenty-one calls of the store. A caller uses this crate, and `kinds` for the types and sizes.

#![tactic(auto)]

pub use bookmarks::{offset, page, pages};
pub use copy::{replay, start as start_copy, value};
pub use deliver::message::message;
pub use installs::{install, report};
pub use merger::{emit, merge, start as start_merger};
pub use reader::record_bytes;
pub use saves::abandon::abandon;
pub use saves::commit::commit;
pub use site::access::{read, search, write};
pub use site::begin::begin;
pub use site::enlist::enlist;
pub use site::start::start as start_site;
