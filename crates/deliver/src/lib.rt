// The call of a site that takes a message: checked, then given to the handler of its kind.

#![tactic(auto)]

mod codes;
mod coordinator;
mod dispatch;
pub mod message;
mod participant;
