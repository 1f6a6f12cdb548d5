// Sheets of paper, how they are counted, and what a print engine does with them.
#![tactic(auto)]

mod count;
mod count_of;
mod engine;
mod sheet;

pub use count::{CopyCount, PageCount, Tally};
pub use engine::Engine;
pub use sheet::{Advanced, Sheet};
