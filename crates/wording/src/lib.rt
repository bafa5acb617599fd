//! The words of the type-test room's text protocol: what its lines, numbers, lists and headers are,
//! and how the calls are worded and answered that each of its programs knows.
#![tactic(auto)]

mod buffers;
mod calls;
mod cells;
mod digits;
mod hexes;
mod lasts;
mod lines;
mod numbers;
mod requests;
mod sizes;
mod stages;
#[cfg(test)]
mod tests;
mod texts;
mod words;

pub use buffers::front;
pub use cells::{append_row, append_rows};
pub use hexes::append_hex;
pub use lines::{is_skipped, without_end};
pub use requests::{Direction, Request, answer_to, call_text, served};
pub use sizes::size_reply;
pub use stages::{difference_reply, fill_reply, number_reply};
pub use texts::{append_chain_fault, append_header, append_labelled, refused_text, word_text};
pub use words::Words;
