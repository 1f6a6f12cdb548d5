// A stored overlay in the table.
ghost use Rattle.std.specs.Prelude.{◌≡◌, ◌^◌, ◌<◌};
ghost use Rattle.store.specs.Entries.{sizes, found_in};

#[derive(Clone, Copy, Debug, Default, PartialEq, Eq)]
pub struct Entry {
    pub id: u16,
    // How many bytes it has.
    pub size: usize,
}

// Where a search found an overlay.
#[derive(Clone, Copy, Debug, PartialEq, Eq)]
pub struct Found {
    // Its place in the table.
    pub at: usize,
    // Where its bytes begin: behind those of all overlays before it.
    pub start: usize,
    pub size: usize,
}

// Where the first overlay with this ID is.
pub(crate) fn find_in(entries: &[Entry], id: u16) -> Option<Found>
    requires { sizes entries.now < 2 ^ 64 }
    ensures { result ≡ found_in entries.now id }
{
    let at = entries.iter().position(|entry| entry.id == id)?;
    let start = entries[..at].iter().map(|entry| entry.size).sum();
    Some(Found {
        at,
        start,
        size: entries[at].size,
    })
}
