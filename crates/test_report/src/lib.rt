//! What `test` and `explore` find, as data: each file's points, with their details and notes. Two renderers print it: as the
//! Test Anything Protocol, version 13, and as plain text for a terminal.
#![tactic(auto)]

mod causes;
mod counts;
mod details;
mod missing;
mod notes;
mod page;
mod plain;
mod point;
mod records;
mod report;
mod status;
mod stuck;
mod summary;
mod tap;
mod verdict;

pub use causes::ToldCause;
pub use counts::{AllOrders, Counts};
pub use details::{Detail, Difference, Unwritten};
pub use missing::{Missing, lack_of};
pub use notes::{Given, LoadGave, Note, Outcome, STALE_IN_SOME, Stale, StaleAccess};
pub use page::{Page, Style};
pub use point::{Point, named};
pub use records::{RecordParts, record, step_line};
pub use report::{FileReport, Mode, Report};
pub use status::{Status, status_by};
pub use stuck::{StuckHart, stuck_harts};
pub use verdict::{Extent, Unjudged, Verdict};
