// The commands list and survey: a line for each record of a volume and the end state, or the end state alone.
// The lines are made by crate journal_listing, whose theorem `lines_joined` says that they are the listing; here they are read and written.
#![tactic(auto)]

mod listing;
mod state;
mod volume;

pub use listing::{Listed, list, print_listing};
pub use state::{close_with, end_status, ended, state_line, survey};
pub use volume::{read_volume, rule_of};
