// What a command does in the state that it meets.
ghost use Rattle.std.specs.Prelude.{◌≡◌};
ghost use Rattle.interpreter.specs.Machines.{machine_of};
ghost use Rattle.interpreter.specs.Performing.{perform, end_page, load_copies, Leaves};
ghost use Rattle.interpreter.specs.Taking.{interpreted};
ghost use Rattle.spool.specs.Spooled.{refusal_of};

use super::Interpreter;
use command::{Command, Header, Refusal, State, decode};
use spool::Copies;

impl Interpreter {
    fn end_page(&mut self, page: u32) -> Result<(), Refusal>
        ensures { Leaves (end_page (refusal_of self.old.copies self.old.spool) page (machine_of self.old)) (machine_of self.old) (machine_of self.new) result }
    {
        self.spool.receive(page, self.copies)?;
        self.state = State::Home;
        Ok(())
    }

    fn load_copies(&mut self, count: u8) -> Result<(), Refusal>
        ensures { Leaves (load_copies count (machine_of self.old)) (machine_of self.old) (machine_of self.new) result }
    {
        self.copies = Copies::new(count).ok_or(Refusal::NotAccepted)?;
        Ok(())
    }

    // Each command in each state.
    fn obey(&mut self, command: Command) -> Result<(), Refusal>
        ensures { Leaves (perform command (machine_of self.old)) (machine_of self.old) (machine_of self.new) result }
    {
        match (self.state, command) {
            (State::Home, Command::BeginPage(page)) => {
                self.state = State::Page(page);
                self.marks = 0;
                Ok(())
            }
            (State::Home, Command::LoadCopyControl(count)) => self.load_copies(count),
            (State::Page(page), Command::EndPage) => self.end_page(page),
            (_, Command::NoOperation) => Ok(()),
            (_, Command::SetHomeState) => {
                self.state = State::Home;
                Ok(())
            }
            (_, Command::DiscardBufferedData) => {
                self.state = State::Home;
                self.spool.discard();
                Ok(())
            }
            (State::Home, Command::EndPage) => Err(Refusal::NotAllowed),
            (State::Page(_), Command::BeginPage(_)) => Err(Refusal::NotAllowed),
            (State::Page(_), Command::LoadCopyControl(_)) => Err(Refusal::NotAllowed),
        }
    }

    // A command whose length is right: its code, state, data length and flag are checked, and it is obeyed.
    pub(super) fn interpret(&mut self, header: Header, data: &[u8]) -> Result<(), Refusal>
        ensures { Leaves (interpreted header «data».now (machine_of self.old)) (machine_of self.old) (machine_of self.new) result }
    {
        let command = decode(self.state, header, data)?;
        self.obey(command)
    }
}
