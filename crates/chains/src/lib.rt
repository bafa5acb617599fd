//! The two chains of the frame coder, from a header's bits and a payload's bytes to cells.
#![tactic(auto)]

mod calls;
mod choices;
mod headers;
mod laws;
mod makings;
mod payloads;
mod refusals;
mod wholes;

pub use calls::{code_header, code_payload, decode_header, decode_payload};
pub use headers::HeaderChain;
pub use laws::chains_carry_their_frames;
pub use payloads::PayloadChain;
pub use refusals::ChainRefusal;
pub use wholes::Chain;
