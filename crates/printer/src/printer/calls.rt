// The calls of a printer end. Each keeps the law over runs, whatever its arguments and whatever came before.
ghost use Rattle.std.specs.Prelude.{◌≡◌, ℕ, ◌+◌, ◌≤◌, List, ◌++◌, length};
ghost use Rattle.interpreter.specs.Takes.{take_seen};
ghost use Rattle.printer.specs.Ends.{areas, took_as, took, turned, turned_times, turn_told, jammed, view_of, made as made_end};
ghost use Rattle.printer.specs.Printers.{end_of, Run, made, bin_before, stacked_by, path_after, owed_by, received_by, flow_by, Receiving, Stands, Keeps, after_take, after_turn, after_jam, after_counters, after_owed, Turns};
ghost use Rattle.spool.specs.Flows.{turn, turned as turned_by, owed};
ghost use Rattle.spool.specs.Jobs.{Page, Proper, job_sheets};
ghost use Rattle.spool.specs.Kept.{Kept};
ghost use Rattle.spool.specs.Spools.{numbers_of, told};
ghost use Rattle.spool.specs.Views.{flow_of};

use super::Printer;
use engine::Engine;
use interpreter::{Interpreter, Taken};
use spool::{Counters, Turned};
use text::Mark;

impl<E: Engine> Printer<E> {
    // A printer end over an engine, whatever that holds: its path is purged.
    pub fn new(mut engine: E) -> Printer<E>
        ensures end { end_of E.Engine result ≡ made_end (E.paper engine).bin (E.paper engine).room }
        ensures law { Stands E.Engine (made (E.paper engine).bin) result }
        ensures kept { Kept (end_of E.Engine result).machine.spool }
    {
        let _ = engine.purge();
        Printer {
            engine,
            interpreter: Interpreter::new(),
        }
    }

    // Carries out the first command in the bytes, with the caller's areas.
    pub fn take(
        &mut self,
        bytes: &[u8],
        reply: &mut [u8],
        marks: &mut [Mark],
        memory: &mut [u8],
    ) -> Taken
        ensures took { took_as (end_of E.Engine self.new) (areas reply.new marks.new memory.new) result ≡ took bytes.now (end_of E.Engine self.old) (areas reply.old marks.old memory.old) }
        ensures law { Keeps E.Engine self.old self.new (after_take (take_seen bytes.now result reply.new)) }
        ensures kept { Kept (end_of E.Engine self.new).machine.spool }
    {
        self.carry_out(bytes, reply)
    }

    // Advances the engine once, and then feeds the next copy where one waits and the path has a place.
    pub fn turn(&mut self) -> Turned
        ensures told { result ≡ turn_told E.K (end_of E.Engine self.old) }
        ensures end { end_of E.Engine self.new ≡ turned E.K (end_of E.Engine self.old) }
        ensures answer { (run : Run) → Stands E.Engine run self.old → result ≡ turned_by E.K (flow_by run (E.paper self.old.engine).room) }
        ensures flow { (run : Run) → Stands E.Engine run self.old → flow_of (view_of (end_of E.Engine self.new)) ≡ turn E.K (flow_of (view_of (end_of E.Engine self.old))) }
        ensures law { Keeps E.Engine self.old self.new (after_turn result (E.paper self.new.engine).path) }
        ensures kept { Kept (end_of E.Engine self.new).machine.spool }
    {
        self.turn_once()
    }

    // So many turns in a row: one more than the sheets owed delivers these, where the bin can hold them.
    pub fn turns(&mut self, n: usize)
        ensures end { end_of E.Engine self.new ≡ turned_times n E.K (end_of E.Engine self.old) }
        ensures law { (run : Run) → Stands E.Engine run self.old → ((after : Run) × (Turns n run after × Stands E.Engine after self.new)) }
        ensures delivers { (run : Run) → Stands E.Engine run self.old → n ≡ length (owed_by run) + 1 → length (owed_by run) ≤ (E.paper self.old.engine).room → (E.paper self.new.engine).bin ≡ (E.paper self.old.engine).bin ++ owed_by run }
        ensures kept { Kept (end_of E.Engine self.new).machine.spool }
    {
        for _ in 0..n {
            let _ = self.turn();
        }
        self.interpreter.spool.kept();
    }

    // Paper was lost: the path, what waits and what is open is dropped, and the host is to be told.
    pub fn jam(&mut self)
        ensures end { end_of E.Engine self.new ≡ jammed (end_of E.Engine self.old) }
        ensures law { Keeps E.Engine self.old self.new after_jam }
        ensures kept { Kept (end_of E.Engine self.new).machine.spool }
    {
        self.lose_paper();
    }

    // The five counters; and what holds of every spool.
    pub fn counters(&self) -> Counters
        ensures told { told result ≡ numbers_of (end_of E.Engine self.now).machine.spool }
        ensures kept { Kept (end_of E.Engine self.now).machine.spool }
        ensures law { Keeps E.Engine self.now self.now (after_counters result) }
    {
        self.interpreter.spool.kept();
        self.interpreter.spool.counters()
    }

    // How many sheets are owed: those in the path and the waiting copies.
    pub fn owed(&self) -> usize
        ensures owed { result ≡ owed (flow_of (view_of (end_of E.Engine self.now))) }
        ensures most { result ≤ 4088 }
        ensures law { Keeps E.Engine self.now self.now (after_owed result) }
        ensures kept { Kept (end_of E.Engine self.now).machine.spool }
    {
        self.interpreter.spool.kept();
        let (path, waiting) = self.count_owed();
        path + waiting
    }

    // Ends the printer end and hands the engine back as it is.
    pub fn into_engine(self) -> E
        ensures engine { result ≡ self.engine }
        ensures law { (run : Run) → Stands E.Engine run self → ((E.paper result).bin ≡ bin_before run ++ stacked_by run) × ((E.paper result).path ≡ path_after run) }
        ensures job { (run : Run) → Stands E.Engine run self → (J : List Page) → Proper J → Receiving J run → received_by run ≡ length J → (E.paper result).bin ++ owed_by run ≡ bin_before run ++ job_sheets J }
    {
        self.release()
    }
}
