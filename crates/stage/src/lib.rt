//! The stage interface: what every coding stage of the modem offers, whoever writes it, and
//! the pile that joins two of them into one.
//!
//! A stage is anything that implements [`Stage`]. Its two calls, `code` and `decode`, take
//! a list and two lent buffers and refuse by a [`Refusal`]. A [`Pile`] of two stages is a
//! stage again, so a chain of any length is an expression of piles.
#![tactic(auto)]

pub mod buffers;
pub mod faults;
pub mod interface;
pub mod outline;
pub mod piles;
pub mod plains;

pub use faults::{ChainFault, Refusal, StageFault};
pub use interface::Stage;
pub use outline::{Outline, Span};
pub use piles::{Pile, pile_keeps_the_promise};
pub use plains::PlainStage;
