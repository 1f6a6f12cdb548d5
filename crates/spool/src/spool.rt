// The counters of a printer end, the pages that wait to be fed, and the sheets in the engine's path.
// The spool keeps its own line of these sheets, so that its counters need nothing outside it.
use crate::page::WaitingPage;
use engine::{PageCount, Sheet, Tally};
use queue::Queue;
use std::marker::Model;

mod calls;

#[derive(Drop)]
pub struct Spool {
    received: PageCount,
    committed: Tally,
    stacked: Tally,
    pages: Queue<WaitingPage, 16>,
    path: Queue<Sheet, 8>,
}

impl Model for Spool {
    ghost use Rattle.engine.specs.Tallies.{counted};
    ghost use Rattle.spool.specs.Spooled.{Spooled, spooled};
    ghost use Rattle.spool.specs.Kept.{Kept};

    ghost Value = { Spooled };

    ghost view = { λ s. spooled s.pages s.received.0 (counted s.committed) (counted s.stacked) s.path };

    ghost invariant = { λ s. Kept (spooled s.pages s.received.0 (counted s.committed) (counted s.stacked) s.path) };
}
