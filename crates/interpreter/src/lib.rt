// Obeys or refuses the commands of a host, one at a time.
#![tactic(auto)]

mod interpreter;
mod taken;

pub use interpreter::Interpreter;
pub use taken::Taken;
