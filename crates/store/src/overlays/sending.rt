// The overlay that is being sent.
ghost use Rattle.std.specs.Prelude.{◌≡◌, ℕ, ◌+◌, ◌≤◌, List, length, is_ok, if◌then◌else◌};
ghost use Rattle.store.specs.Stores.{answer, held, beginning, written, storing, dropping, Bounded};
ghost use Rattle.store.specs.Contents.{contents};
ghost use Rattle.store.specs.Laws.{emptied, appended, BeginGrounds, StoreGrounds};

use super::{LAST_ID, Overlays};
use refusal::Refusal;

// The bytes go to this place of the memory.
fn put(memory: &mut [u8], at: usize, bytes: &[u8])
    requires { at + length bytes.now ≤ length memory.old }
    ensures { memory.new ≡ written memory.old at bytes.now }
{
    memory[at..at + bytes.len()].copy_from_slice(bytes);
}

impl Overlays {
    // The overlay that is being sent is dropped.
    pub fn drop_open(&mut self)
        ensures store { self.new ≡ dropping self.old }
        ensures contents { (m : List ℕ) → contents m self.new ≡ emptied (contents m self.old) }
        ensures bounded { Bounded self.new }
    {
        self.begun = 0;
        self.bounded();
    }

    // Why an overlay with this ID cannot begin.
    fn check_new(&self, id: u16) -> Result<(), Refusal>
        ensures { result ≡ (beginning id self.now).result }
    {
        if !(1..=LAST_ID).contains(&id) {
            return Err(Refusal::IdOutOfRange);
        }
        if self.find(id).is_some() {
            return Err(Refusal::AlreadyStored);
        }
        if self.is_full() {
            return Err(Refusal::StoreFull);
        }
        Ok(())
    }

    // An overlay begins: none of its bytes have come.
    pub fn begin(&mut self, id: u16) -> Result<(), Refusal>
        ensures store { answer self.new result ≡ beginning id self.old }
        ensures contents { (m : List ℕ) → contents m self.new ≡ (if is_ok result then emptied (contents m self.old) else contents m self.old) }
        ensures grounds { BeginGrounds id self.old result }
        ensures bounded { Bounded self.new }
    {
        self.bounded();
        self.check_new(id)?;
        self.drop_open();
        Ok(())
    }

    // A command of the overlay that is being sent goes behind the bytes that are kept.
    pub fn store(&mut self, memory: &mut [u8], command: &[u8]) -> Result<(), Refusal>
        ensures store { held self.new memory.new result ≡ storing command.now self.old memory.old }
        ensures contents { contents memory.new self.new ≡ (if is_ok result then appended command.now (contents memory.old self.old) else contents memory.old self.old) }
        ensures grounds { StoreGrounds command.now self.old memory.old result }
        ensures bounded { Bounded self.new }
    {
        self.bounded();
        let kept = self.kept();
        if kept > memory.len() || command.len() > memory.len() - kept {
            return Err(Refusal::StoreFull);
        }
        put(memory, kept, command);
        self.begun += command.len();
        self.bounded();
        Ok(())
    }
}
