// The spool of a printer end, and the law of its whole runs.
#![tactic(auto)]

mod copies;
mod page;
mod spool;

pub use copies::Copies;
pub use page::{Counters, NotReceived, Turned, WaitingPage};
pub use spool::Spool;
