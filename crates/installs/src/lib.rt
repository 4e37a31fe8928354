// The calls of a site that write its log: install a part record, report a state record.

#![tactic(auto)]

mod part;
mod state;

pub use part::install;
pub use state::report;
