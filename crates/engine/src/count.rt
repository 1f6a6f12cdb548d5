// Counts of pages and counts of copies are types of their own, so that neither stands in for the other.

// So many pages.
#[derive(Clone, Copy, Debug, Default, PartialEq, Eq)]
pub struct PageCount(pub u16);

// So many copies of one page.
#[derive(Clone, Copy, Debug, Default, PartialEq, Eq)]
pub struct CopyCount(pub u8);

// How many pages are complete, and how many copies there are of the page after them.
#[derive(Clone, Copy, Debug, Default, PartialEq, Eq)]
pub struct Tally {
    pub pages: PageCount,
    pub copies: CopyCount,
}
