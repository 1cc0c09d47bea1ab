// The message sources of a CAN bus: what they may send, and what they answer about it.
#![tactic(auto)]

mod burst;
mod cycle;
mod cyclic;
mod fault;
mod held_up;
mod lengths;
mod limits;
mod payloads;
mod runs;
mod source;
mod volley;

pub use burst::Burst;
pub use cyclic::Cyclic;
pub use fault::RowFault;
pub use held_up::HeldUp;
pub use source::{Entry, Source};
