//! What the parts of a test share: a file under test and what is odd about it, the options, the time limit, why a test ends
//! early, and the records that are kept.
#![tactic(auto)]

mod causes;
mod files;
mod kept;
mod limit;
mod next_accesses;
mod odd;
mod options;
mod stop;
mod trial;

pub use causes::{put_causes, told_causes};
pub use files::is_one_of;
pub use kept::keep;
pub use limit::Limit;
pub use next_accesses::NextAccesses;
pub use odd::{oddities, unasked};
pub use options::{Options, Orders, Screen};
pub use stop::Stop;
pub use trial::Trial;
