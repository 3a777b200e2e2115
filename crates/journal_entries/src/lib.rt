// The entries of an index in a buffer (request 2026-08), read by their counts: the order of names, a name found or looked up, places of entries,
// and the index amended in its place. Nothing is assumed of the buffer's bytes, and no memory is needed.
#![tactic(auto)]

mod amending;
mod finding;
mod names;
mod shape;
mod walking;
mod writing;

pub use amending::{amend, has_room};
pub use finding::{find, look_up};
pub use names::order_of;
pub use shape::{is_below, is_index};
pub use walking::{End, Entry, end_of, entry_at, entry_place};
pub use writing::{put_count, put_entry};
