// The stored overlays. Their bytes lie in the caller's memory, which is lent at each call, from its start on, one
// overlay behind the other, and behind them the bytes of the overlay that is being sent. So where an overlay begins is
// a sum of sizes. Clauses see the entries and how many bytes of the overlay that is being sent have come.
use crate::entry::Entry;
use queue::Queue;
use std::marker::Model;

mod sending;
mod stored;
mod told;

// The IDs of overlays run from 1 to this. They are plain numbers, since a type of these IDs would serve `begin` alone:
// `close` and `bytes_of` take any number, and to `delete` 0 stands for all.
pub const LAST_ID: u16 = 127;

// How many overlays can be stored.
const MOST: usize = 64;

#[derive(Drop)]
pub struct Overlays {
    entries: Queue<Entry, MOST>,
    // How many bytes the stored overlays have.
    bytes: usize,
    // How many bytes of the overlay that is being sent have come.
    begun: usize,
}

impl Model for Overlays {
    ghost use Rattle.std.specs.Prelude.{◌≡◌, ◌+◌, ◌^◌, ◌<◌};
    ghost use Rattle.store.specs.Entries.{sizes};
    ghost use Rattle.store.specs.Stores.{Store, store};

    ghost Value = { Store };

    ghost view = { λ o. store o.entries o.begun };

    ghost invariant = { λ o. (o.bytes ≡ sizes o.entries) × (o.bytes + o.begun < 2 ^ 64) };
}
