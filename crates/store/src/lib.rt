// Stored overlays: the table of their IDs and sizes, and their bytes in the caller's memory.
#![tactic(auto)]

mod entry;
mod overlays;

pub use entry::Entry;
pub use overlays::{LAST_ID, Overlays};
