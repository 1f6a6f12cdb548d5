// Taking a command: the checks in their order.
ghost use Rattle.std.specs.Prelude.{◌≡◌};
ghost use Rattle.interpreter.specs.Machines.{machine_of, fresh};
ghost use Rattle.interpreter.specs.Taking.{taking, take_of, blocked};
ghost use Rattle.spool.specs.Kept.{Kept};

use super::Interpreter;
use crate::taken::Taken;
use command::{Header, Kind, Refusal, State};
use spool::{Copies, Spool};

impl Interpreter {
    // Nothing is received and nothing is open, one copy is in force, and nothing is pending.
    pub fn new() -> Interpreter
        ensures machine { machine_of result ≡ fresh }
        ensures kept { Kept result.spool }
    {
        Interpreter {
            spool: Spool::new(),
            state: State::Home,
            copies: Copies::one(),
            pending: None,
            marks: 0,
        }
    }

    // The end of a page that cannot wait yet, since sixteen do.
    fn is_blocked(&self, header: Header) -> bool
        ensures { result ≡ blocked header (machine_of self.now) }
    {
        match (self.state, header.kind()) {
            (State::Page(_), Some(Kind::EndPage)) => self.spool.is_full(),
            _ => false,
        }
    }

    // Carries out the first command in the bytes.
    pub fn take(&mut self, bytes: &[u8], reply: &mut [u8]) -> Taken
        ensures took { taking (machine_of self.new) reply.new result ≡ take_of bytes.now (machine_of self.old) reply.old }
        ensures kept { Kept self.new.spool }
    {
        let taken = self.take_first(bytes, reply);
        self.spool.kept();
        taken
    }

    // The take itself. What holds of every spool is looked up behind it, once for all the ways in which it ends.
    fn take_first(&mut self, bytes: &[u8], reply: &mut [u8]) -> Taken
        ensures { taking (machine_of self.new) reply.new result ≡ take_of bytes.now (machine_of self.old) reply.old }
    {
        // No `?`: a take answers what it did, and cannot fail.
        let Some((header, rest)) = Header::read(bytes) else {
            return self.untouched(Refusal::Incomplete);
        };
        let Some(front) = reply.first_chunk_mut::<40>() else {
            return self.untouched(Refusal::AreaShort);
        };
        if !header.in_range() {
            return self.unreadable(header, bytes.len());
        }
        let length = usize::from(header.length);
        if bytes.len() < length {
            return self.untouched(Refusal::Incomplete);
        }
        if let Some(fault) = self.pending {
            return self.hand_over(header, fault, front);
        }
        if self.is_blocked(header) {
            return self.untouched(Refusal::SixteenWait);
        }
        match self.interpret(header, &rest[0..length - 5]) {
            Ok(()) => self.accept(header, front),
            Err(refusal) => self.refuse(header, refusal, front),
        }
    }
}
