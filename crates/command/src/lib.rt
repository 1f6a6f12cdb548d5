// IPDS commands: their header, the table of their codes, their data, and why they are refused.
#![tactic(auto)]

mod decoding;
mod header;
mod reading;
mod state;
mod table;

pub use decoding::decode;
pub use header::Header;
pub use refusal::{Fault, Place, Refusal};
pub use state::{Command, State};
pub use table::Kind;
