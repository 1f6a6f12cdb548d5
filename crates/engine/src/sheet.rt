// One copy of a page on paper.
#[derive(Clone, Copy, Debug, Default, PartialEq, Eq)]
pub struct Sheet {
    // The page's ID.
    pub page: u32,
    // The copy's number, from 1.
    pub copy: u8,
    // Whether it is the page's last copy.
    pub last: bool,
}

// What an engine answers to an advance. No Result: a turn goes on after an advance that stacks nothing, so neither an
// empty path nor a full bin is an error.
#[derive(Clone, Copy, Debug, PartialEq, Eq)]
pub enum Advanced {
    Stacked(Sheet),
    PathEmpty,
    BinFull,
}
