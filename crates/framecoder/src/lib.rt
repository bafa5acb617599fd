//! The coder's calls for programs in C and Rust, as a static library.
//!
//! A call takes numbers and lists of bytes, and tests whatever it can of what it is handed: what is
//! wrong is refused, and told by an [`Answer`] of plain numbers.
//!
//! In C a number is a `size_t`, and a list is a pointer to its elements and then its length. What no
//! call can test is left to the caller: each pointer leads to as many bytes as the length says, and
//! the two buffers share no byte with each other or with a list that is handed in.
#![tactic(auto)]

pub mod answers;
mod calls;
pub mod coding;
pub mod decoding;

pub use answers::Answer;
