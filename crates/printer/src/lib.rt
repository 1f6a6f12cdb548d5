// A printer end over any engine.
#![tactic(auto)]

mod feeding;
mod printer;

pub use printer::Printer;
