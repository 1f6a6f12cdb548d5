// Text for a page: what a host puts into a Write Text command.
#![tactic(auto)]

mod builder;
mod ebcdic;

pub use builder::WriteText;
pub use ebcdic::{to_ascii, to_ebcdic};
