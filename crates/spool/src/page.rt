// Pages that wait to be fed, and what a spool tells of them.
ghost use Rattle.std.specs.Prelude.{◌≡◌};
ghost use Rattle.spool.specs.Refusing.{refusal_for};

use engine::{Advanced, PageCount, Tally};
use refusal::Refusal;

// A page of which `unfed` copies are still to be fed.
#[derive(Clone, Copy, Debug, Default, PartialEq, Eq)]
pub struct WaitingPage {
    pub page: u32,
    pub unfed: u8,
}

// Why a page is not received. No Refusal: these three are all, so a match on them is whole.
#[derive(Clone, Copy, Debug, PartialEq, Eq)]
pub enum NotReceived {
    // Sixteen pages wait already.
    SixteenWait,
    // The received counter cannot grow.
    PagesSpent,
    // The page that is being resumed would come to more than 255 copies.
    CopiesSpent,
}

impl From<NotReceived> for Refusal {
    ghost from_gives = { λ e refusal. refusal ≡ refusal_for e };

    // What the host is told.
    fn from(e: NotReceived) -> Refusal {
        match e {
            NotReceived::SixteenWait => Refusal::SixteenWait,
            NotReceived::PagesSpent => Refusal::PagesSpent,
            NotReceived::CopiesSpent => Refusal::CopiesSpent,
        }
    }
}

// What a printer end has counted.
#[derive(Clone, Copy, Debug, PartialEq, Eq)]
pub struct Counters {
    // The pages that came.
    pub received: PageCount,
    // What is stacked or in the path.
    pub committed: Tally,
    // What is stacked.
    pub stacked: Tally,
}

// What a turn answers: what its advance answered, and whether it fed a sheet.
#[derive(Clone, Copy, Debug, PartialEq, Eq)]
pub struct Turned {
    pub advanced: Advanced,
    pub fed: bool,
}
