// The words of a line, and the numbers and bytes that they write.
#![tactic(auto)]

mod digits;
mod split;

pub use digits::{hex, number, number_up_to};
pub use split::{first_word, same, says_nothing};
