// What text leaves on a page.
#![tactic(auto)]

mod axis;
mod conditions;
mod control;
mod effect;
mod fault;
mod font;
mod mark;
mod moves;
mod repeat;
mod rules;
mod run;
mod step;
mod theorems;
mod write;
mod writer;

pub use conditions::TextConditions;
pub use fault::TextFault;
pub use font::Font;
pub use mark::Mark;
pub use theorems::laws_stand;
pub use write::write_text;
pub use writer::Writer;
