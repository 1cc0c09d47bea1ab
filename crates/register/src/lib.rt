// A register of the messages on one bus, in memory that the caller lends.
#![tactic(auto)]

mod calls;
mod changes;
mod performing;
mod register;
mod slot;
mod table;
mod unsettle;
mod uses;

pub use performing::perform;
pub use register::Register;
pub use slot::Slot;
pub use uses::{Answer, HostFault, RegisterFault, Use};
