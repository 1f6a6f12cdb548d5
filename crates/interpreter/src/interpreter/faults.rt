// How a take ends.
ghost use Rattle.std.specs.Prelude.{◌≡◌, ℕ, List, Err};
ghost use Rattle.interpreter.specs.Machines.{machine_of, open_page};
ghost use Rattle.interpreter.specs.Outcomes.{told};
ghost use Rattle.interpreter.specs.Taking.{taking, unreadable, handed, accepted, faulted, fault_of, jammed};
ghost use Rattle.spool.specs.Kept.{Kept};

use super::Interpreter;
use crate::taken::Taken;
use command::{Fault, Header, Place, Refusal, State};

impl Interpreter {
    // Refused with nothing used and nothing changed.
    pub(super) fn untouched(&self, refusal: Refusal) -> Taken
        ensures { result ≡ told 0 (Err refusal) 0 self.now.marks }
    {
        Taken {
            used: 0,
            outcome: Err(refusal),
            reply: 0,
            marks: self.marks,
        }
    }

    // The command is used up, with this outcome and a reply of this length.
    fn used_up(&self, header: Header, outcome: Result<(), Refusal>, reply: usize) -> Taken
        ensures { result ≡ told header.length outcome reply self.now.marks }
    {
        Taken {
            used: usize::from(header.length),
            outcome,
            reply,
            marks: self.marks,
        }
    }

    // The ID of the open page.
    fn open_page(&self) -> Option<u32>
        ensures { result ≡ open_page self.now.state }
    {
        match self.state {
            State::Home => None,
            State::Page(page) => Some(page),
        }
    }

    // What the host is told of a refusal of its command.
    fn fault(&self, refusal: Refusal, header: Header) -> Fault
        ensures { result ≡ fault_of refusal header self.now.state }
    {
        Fault {
            refusal,
            place: Some(Place {
                host: header.code,
                command: header.code,
                offset: 0,
            }),
            overlay: None,
            page: self.open_page(),
        }
    }

    // A length that cannot be: all bytes are used, and the fault is pending unless one already is.
    pub(super) fn unreadable(&mut self, header: Header, given: usize) -> Taken
        ensures { (area : List ℕ) → taking (machine_of self.new) area result ≡ unreadable header given (machine_of self.old) area }
    {
        let fault = self.fault(Refusal::LengthOutOfRange, header);
        self.pending = self.pending.or(Some(fault));
        self.state = State::Home;
        Taken {
            used: given,
            outcome: Err(Refusal::LengthOutOfRange),
            reply: 0,
            marks: self.marks,
        }
    }

    // Discarded while a negative reply is pending; with a request the reply is handed over. Header and reply area are lent
    // to this call and the two below alone, and no value keeps them.
    pub(super) fn hand_over(&mut self, header: Header, fault: Fault, reply: &mut [u8; 40]) -> Taken
        ensures { taking (machine_of self.new) reply.new result ≡ handed fault header (machine_of self.old) reply.old }
    {
        if !header.asks_reply() {
            return self.used_up(header, Err(Refusal::ReplyPending), 0);
        }
        let size = reply::refuse(reply, self.spool.counters(), fault);
        self.pending = None;
        self.used_up(header, Err(Refusal::ReplyPending), size)
    }

    // The command was obeyed.
    pub(super) fn accept(&self, header: Header, reply: &mut [u8; 40]) -> Taken
        ensures { taking (machine_of self.now) reply.new result ≡ accepted header (machine_of self.now) reply.old }
    {
        if !header.asks_reply() {
            return self.used_up(header, Ok(()), 0);
        }
        let size = reply::acknowledge(reply, self.spool.counters());
        self.used_up(header, Ok(()), size)
    }

    // The command is at fault: what is open is dropped, and the negative reply is handed over or is pending.
    pub(super) fn refuse(&mut self, header: Header, refusal: Refusal, reply: &mut [u8; 40]) -> Taken
        ensures { taking (machine_of self.new) reply.new result ≡ faulted (fault_of refusal header self.old.state) header (machine_of self.old) reply.old }
    {
        let fault = self.fault(refusal, header);
        self.state = State::Home;
        if !header.asks_reply() {
            self.pending = Some(fault);
            return self.used_up(header, Err(refusal), 0);
        }
        let size = reply::refuse(reply, self.spool.counters(), fault);
        self.used_up(header, Err(refusal), size)
    }

    // Paper was lost: what waits and what is open is dropped, and the host is to be told instead of anything earlier.
    pub fn jam(&mut self)
        ensures machine { machine_of self.new ≡ jammed (machine_of self.old) }
        ensures kept { Kept self.new.spool }
    {
        self.pending = Some(Fault {
            refusal: Refusal::PaperLost,
            place: None,
            overlay: None,
            page: self.open_page(),
        });
        self.state = State::Home;
        self.spool.jam();
    }
}
