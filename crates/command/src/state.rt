// What a command is once its data is read, and the states that it may meet.

// What is open. No Option<u32>: the table's rows and `obey` speak of home state and page state, and a match on None
// would not.
#[derive(Clone, Copy, Debug, PartialEq, Eq)]
pub enum State {
    // Nothing.
    Home,
    // The page with this ID.
    Page(u32),
}

// A command with its data.
#[derive(Clone, Copy, Debug, PartialEq, Eq)]
pub enum Command {
    // Opens the page with this ID.
    BeginPage(u32),
    EndPage,
    // So many copies of each page that ends from now on.
    LoadCopyControl(u8),
    NoOperation,
    SetHomeState,
    // The one order of Execute Order Any State.
    DiscardBufferedData,
}
