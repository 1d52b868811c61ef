//! A board behind one lock, for harts on their own threads: seats make calls, accepted calls give receipts, and closing
//! gives one record, in which each receipt's event stands.
#![tactic(auto)]

mod bells;
mod closing;
mod desk;
mod opening;
mod past;
mod receipts;
mod records;
mod rests;
mod rooms;
mod seats;
mod shared;
mod views;
mod waking;

pub use past::Past;
pub use receipts::Receipt;
pub use records::{Record, later_calls_are_later};
pub use rests::{Awaits, Rest};
pub use rooms::{NewRoom, Room};
pub use seats::Seat;
pub use shared::{NotAll, SharedBoard};
pub use views::{HartNow, HartView};
