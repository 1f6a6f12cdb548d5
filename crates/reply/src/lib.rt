// Replies to the host: acknowledgements, and negative ones with their sense bytes.
#![tactic(auto)]

mod bytes;
mod writing;

pub use writing::{acknowledge, refuse};
