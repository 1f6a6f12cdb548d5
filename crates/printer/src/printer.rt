// A printer end: an engine, and the interpreter of the host's commands with its spool. Clauses name `end_of` of it. No
// model: `into_engine` promises the engine itself, which a model of paper and machine would forget.
use engine::Engine;
use interpreter::Interpreter;

mod calls;
mod steps;

#[derive(Drop)]
pub struct Printer<E: Engine> {
    engine: E,
    interpreter: Interpreter,
}
