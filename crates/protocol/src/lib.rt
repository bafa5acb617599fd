//! The text protocol of the type-test room: one line of text for each call, one for its answer.
#![tactic(auto)]

mod replies;
mod stages;

pub use replies::reply;
