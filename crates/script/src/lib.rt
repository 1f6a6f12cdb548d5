// The script of a session: each line is read as one call, with the bytes that it carries.
#![tactic(auto)]

mod call;
mod parser;

pub use call::{Areas, Call, EngineKind};
pub use parser::parse;
