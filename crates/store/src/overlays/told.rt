// What is told of the overlays.
ghost use Rattle.std.specs.Prelude.{◌≡◌, ◌≤◌, length};
ghost use Rattle.std.specs.Option.{option_map};
ghost use Rattle.store.specs.Entries.{found_in};
ghost use Rattle.store.specs.Stores.{kept, full, Bounded};
ghost use Rattle.store.specs.Contents.{overlays_in, bytes_in};

use super::{MOST, Overlays};
use crate::entry::{Found, find_in};

impl Overlays {
    // How many overlays are stored.
    pub fn count(&self) -> usize
        ensures entries { result ≡ length self.now.entries }
        ensures within { result ≤ 64 }
    {
        self.entries.len()
    }

    // How many bytes of the memory are in use.
    pub fn kept(&self) -> usize
        ensures { result ≡ kept self.now }
    {
        self.bytes + self.begun
    }

    // What holds of every table: the calls that make or change one tell it of what they leave. By a look at both numbers
    // the check learns what the types hold.
    pub(super) fn bounded(&self)
        ensures { Bounded self.now }
    {
        let _ = self.count();
        let _ = self.kept();
    }

    // Whether no further overlay can be stored.
    pub(super) fn is_full(&self) -> bool
        ensures { result ≡ full self.now.entries }
    {
        // At least, as the definition says; the queue's own `is_full` says exactly.
        self.count() >= MOST
    }

    // Where the overlay with this ID is.
    pub(super) fn find(&self, id: u16) -> Option<Found>
        ensures { result ≡ found_in self.now.entries id }
    {
        find_in(self.entries.as_slice(), id)
    }

    // The bytes of the overlay with this ID, as far as the memory has them.
    pub fn bytes_of<'m>(&self, memory: &'m [u8], id: u16) -> Option<&'m [u8]>
        ensures { option_map (λ x. x.now) result ≡ bytes_in (overlays_in self.now.entries memory.now) id }
    {
        let found = self.find(id)?;
        let behind = &memory[found.start.min(memory.len())..];
        Some(&behind[..found.size.min(behind.len())])
    }
}
