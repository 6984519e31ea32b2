//! The rules of a museum's donors: days and dates, rules, and the verdict that they give on a file.
#![tactic(auto)]

mod audience;
mod date;
mod day;
mod decision;
mod limits;
mod rule;
mod select;
mod verdict;
mod zone;

pub use audience::{Audience, Audiences};
pub use date::{DateFault, date_read, date_text, one_date};
pub use day::{DayFault, day_of, is_day};
pub use decision::{decide, in_order, one_decides};
pub use limits::{LAST_RANK, LAST_SCOPE, LAST_SLOT, is_rank, is_scope};
pub use rule::{Band, Effect, Rule};
pub use select::Select;
pub use verdict::{Label, Verdict};
pub use zone::{Zone, ZoneFault};
