// The lines that answer a script, each made with its newline.
#![tactic(auto)]

mod answers;
mod plain;
mod sheets;

pub use answers::{areas_line, counters_line, counts, mark_line, take_line};
pub use plain::{hex_line, memory_line, number_line};
pub use sheets::sheet_line;
