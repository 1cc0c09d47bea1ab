// The response bound of one message among the messages of a bus.
#![tactic(auto)]

mod analysis;
mod curves;
mod fixed_point;
mod listed;
mod outcome;
mod place;

pub use analysis::{check_row, respond};
pub use fixed_point::{Curve, Found, HORIZON, search};
pub use listed::{Listed, Row};
pub use outcome::{Outcome, ResponseFault, Verdict};
pub use place::longest_frame;
