//! The text protocol of the type-test room: one line of text for each call, one for its answer.
#![tactic(auto)]

mod chain_stages;
mod packs;
mod replies;
mod stages;

pub use replies::call_reply;
