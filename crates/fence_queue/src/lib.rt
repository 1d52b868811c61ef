//! The fences that wait at a board's harts, in one ring buffer for each hart.
#![tactic(auto)]

mod queues;
mod request;
mod waiting;

pub use queues::Queues;
pub use request::Request;
pub use waiting::Waiting;
