// Print engines with a path of a few places: one stacks sheets in a list, one as records of bytes.
#![tactic(auto)]

mod bin;
mod file;
mod pack;
mod path;
mod track;

pub use bin::Bin;
pub use file::{FileEngine, Records};
pub use pack::record;
pub use path::PathEngine;
pub use track::{SheetList, TrackEngine};
