// The overlays that are stored.
ghost use Rattle.std.specs.Prelude.{◌≡◌, ℕ, ◌<◌, ◌≤◌, List, length, is_ok, if◌then◌else◌};
ghost use Rattle.store.specs.Entries.{found_in};
ghost use Rattle.store.specs.Stores.{empty_store, kept, held, closing, closed_up, deleting_at, deleting, Bounded};
ghost use Rattle.store.specs.Contents.{contents};
ghost use Rattle.store.specs.Laws.{ended, deleted, Session, Gapless, OnceLaws, DeleteGrounds};

use super::{LAST_ID, Overlays};
use crate::entry::{Entry, Found};
use queue::Queue;
use refusal::Refusal;

// The bytes that were found leave the memory, of which `kept` bytes are in use: those behind them move down. A memory
// that has not all that are in use stays as it is.
fn close_up(memory: &mut [u8], kept: usize, found: Found)
    ensures { memory.new ≡ closed_up memory.old kept found }
{
    queue::close_span(memory, kept, found.start, found.size);
}

impl Overlays {
    // Nothing is stored and nothing is being sent.
    pub fn new() -> Overlays
        ensures store { result ≡ empty_store }
        ensures bounded { Bounded result }
    {
        Overlays {
            entries: Queue::new(Entry::default()),
            bytes: 0,
            begun: 0,
        }
    }

    // The overlay that is being sent ends: it is stored, behind the others. With 64 stored nothing happens.
    pub fn close(&mut self, id: u16)
        ensures store { self.new ≡ closing id self.old }
        ensures contents { (m : List ℕ) → length self.old.entries < 64 → contents m self.new ≡ ended id (contents m self.old) }
        ensures session { Session }
        ensures gapless { Gapless }
        ensures bounded { Bounded self.new }
    {
        let entry = Entry {
            id,
            size: self.begun,
        };
        if self.entries.push(entry) {
            self.bytes += self.begun;
            self.begun = 0;
        }
        self.bounded();
    }

    // Takes the overlay with this ID out of the table and its bytes out of the memory.
    fn remove(&mut self, memory: &mut [u8], id: u16) -> Result<(), Refusal>
        ensures store { held self.new memory.new result ≡ deleting_at (found_in self.old.entries id) self.old memory.old }
        ensures bounded { Bounded self.new }
    {
        self.bounded();
        let found = self.find(id).ok_or(Refusal::NotStored)?;
        close_up(memory, self.kept(), found);
        self.entries.remove(found.at);
        self.bytes -= found.size;
        self.bounded();
        Ok(())
    }

    // The overlay with this ID is deleted, or all with ID 0: the bytes behind it move down.
    pub fn delete(&mut self, memory: &mut [u8], id: u16) -> Result<(), Refusal>
        ensures store { held self.new memory.new result ≡ deleting id self.old memory.old }
        ensures contents { kept self.old ≤ length memory.old → contents memory.new self.new ≡ (if is_ok result then deleted id (contents memory.old self.old) else contents memory.old self.old) }
        ensures grounds { DeleteGrounds id self.old result }
        ensures once { OnceLaws }
        ensures bounded { Bounded self.new }
    {
        self.bounded();
        match id {
            0 => {
                *self = Overlays::new();
                Ok(())
            }
            1..=LAST_ID => self.remove(memory, id),
            _ => Err(Refusal::IdOutOfRange),
        }
    }
}
