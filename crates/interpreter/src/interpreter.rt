// The spool, what is open, the copies in force, the negative reply that waits to be fetched, and the count of marks.
// Clauses name `machine_of` of it. No model: the engine's side works on the spool alone, and would have to show the whole
// machine anew after each such work.
ghost use Rattle.std.specs.Prelude.{◌<◌, ◌≤◌};

use command::{Fault, State};
use spool::{Copies, Spool};

mod faults;
mod obey;
mod take;

#[derive(Drop)]
pub struct Interpreter {
    // The engine's side feeds from it and counts in it.
    pub spool: Spool,
    state: State,
    copies: Copies,
    pending: Option<Fault>,
    marks: usize,
    ghost some: { 0 < copies },
    ghost few: { copies ≤ 255 },
}
