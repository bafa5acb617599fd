//! Scripts of calls on a receiver, and the replies to them.
use crate::refusals::{FeedRefusal, StartRefusal, TakeRefusal};
use frame::Header;

/// One call of a script.
#[derive(Drop)]
pub enum Step {
    /// Start under this reference.
    Start(Vec<u8>),
    /// Feed this row.
    Feed(Vec<u8>),
    /// Take with so many bytes of room; no payload has more than 255.
    Take(u8),
}

/// The reply to one call of a script.
#[derive(Drop)]
pub enum Reply {
    /// The answer to a start.
    Started(Result<(), StartRefusal>),
    /// The answer to a feed.
    Fed(Result<usize, FeedRefusal>),
    /// The answer to a take: the header and the payload.
    Took(Result<(Header, Vec<u8>), TakeRefusal>),
}
