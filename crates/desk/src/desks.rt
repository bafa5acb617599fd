//! The desk.
use receiving::Receiver;
use sending::Begun;

/// What a run keeps from call to call: one receiver, one transmit buffer, and at most one begun frame.
#[derive(Drop)]
pub struct Desk {
    pub(crate) receiver: Receiver,
    pub(crate) cells: Vec<u8>,
    pub(crate) begun: Option<Begun>,
}
