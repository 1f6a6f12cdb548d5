// The calls without the law: what each does, exactly.
ghost use Rattle.std.specs.Prelude.{◌≡◌, ◌≤◌, length};
ghost use Rattle.interpreter.specs.Machines.{machine_of};
ghost use Rattle.interpreter.specs.Taking.{taking, take_of};
ghost use Rattle.printer.specs.Ends.{jammed, turned, turn_told};
ghost use Rattle.printer.specs.Printers.{end_of};
ghost use Rattle.spool.specs.Kept.{Kept, Whole};
ghost use Rattle.spool.specs.Spooled.{unfed_in};

use super::Printer;
use crate::feeding::{advance_once, feed_next};
use engine::Engine;
use interpreter::Taken;
use spool::Turned;

impl<E: Engine> Printer<E> {
    // A command, with the reply area.
    pub(super) fn carry_out(&mut self, bytes: &[u8], reply: &mut [u8]) -> Taken
        ensures engine { self.new.engine ≡ self.old.engine }
        ensures took { taking (machine_of self.new.interpreter) reply.new result ≡ take_of bytes.now (machine_of self.old.interpreter) reply.old }
        ensures whole { Whole self.old.interpreter.spool }
        ensures kept { Kept self.new.interpreter.spool }
    {
        self.interpreter.spool.kept();
        self.interpreter.take(bytes, reply)
    }

    // One advance, then one feed.
    pub(super) fn turn_once(&mut self) -> Turned
        ensures told { result ≡ turn_told E.K (end_of E.Engine self.old) }
        ensures end { end_of E.Engine self.new ≡ turned E.K (end_of E.Engine self.old) }
        ensures whole { Whole self.old.interpreter.spool }
        ensures kept { Kept self.new.interpreter.spool }
    {
        self.interpreter.spool.kept();
        let advanced = advance_once(&mut self.engine, &mut self.interpreter.spool);
        let fed = feed_next(&mut self.engine, &mut self.interpreter.spool);
        Turned { advanced, fed }
    }

    // The path, what waits and what is open is lost.
    pub(super) fn lose_paper(&mut self)
        ensures end { end_of E.Engine self.new ≡ jammed (end_of E.Engine self.old) }
        ensures kept { Kept self.new.interpreter.spool }
    {
        let _ = self.engine.purge();
        self.interpreter.jam();
    }

    // The sheets in the path, and the waiting copies.
    pub(super) fn count_owed(&self) -> (usize, usize)
        ensures path { result.0 ≡ length (E.paper self.now.engine).path }
        ensures waiting { result.1 ≡ unfed_in (end_of E.Engine self.now).machine.spool.waiting }
        ensures few { result.1 ≤ 4080 }
    {
        (self.engine.path_count(), self.interpreter.spool.unfed())
    }

    pub(super) fn release(self) -> E
        ensures { result ≡ self.engine }
    {
        let Printer {
            engine,
            interpreter: _,
        } = self;
        engine
    }
}
