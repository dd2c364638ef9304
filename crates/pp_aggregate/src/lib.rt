//! Profiles of which only a part is kept, for reports that look at no more: names, lines, columns, addresses or inlined
//! frames are dropped. A law says which reports stay the same.
//!
//! Begin with `aggregating`; `location` says what is left of a location, and `law` which reports stay.
#![tactic(auto)]

mod aggregating;
mod law;
mod location;

pub use aggregating::{Kept, aggregate, aggregate_compact};
pub use law::coarser_reports_stay;
