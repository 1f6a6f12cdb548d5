ghost use Rattle.std.specs.Prelude.{◌≡◌, ◌≤◌, None, if◌then◌else◌, slice_get};
ghost use Rattle.engine.specs.Tallies.{counted};
ghost use Rattle.spool.specs.Kept.{Kept};
ghost use Rattle.spool.specs.Spooled.{empty, idle, next_sheet, next_of, commit, stack, Receives, discard, jam, unfed_in, full, free};
ghost use Rattle.spool.specs.Spools.{numbers_of, told};

use super::Spool;
use crate::copies::Copies;
use crate::page::{Counters, NotReceived, WaitingPage};
use engine::{CopyCount, PageCount, Sheet, Tally};
use queue::Queue;

impl Spool {
    // Nothing waits and nothing is in the path; so much is stacked.
    fn at(stacked: Tally) -> Spool
        requires { stacked.copies.0 ≤ 254 }
        ensures { result ≡ idle (counted stacked) }
    {
        Spool {
            received: stacked.pages,
            committed: stacked,
            stacked,
            pages: Queue::new(WaitingPage::default()),
            path: Queue::new(Sheet::default()),
        }
    }

    pub fn new() -> Spool
        ensures spool { result ≡ empty }
        ensures kept { Kept result }
    {
        Spool::at(Tally::none())
    }

    // What holds of every spool: callers, who see a spool by what it holds, learn it here.
    pub fn kept(&self)
        ensures { Kept self.now }
    {
        // A look at a field: by it the check learns what the type holds.
        let _ = &self.received;
    }

    // Whether sixteen pages wait, so that another cannot.
    pub fn is_full(&self) -> bool
        ensures { result ≡ full self.now }
    {
        self.pages.is_full()
    }

    // The page of which a copy can be fed: the first that waits, where the path has a place.
    fn first_to_feed(&self) -> Option<WaitingPage>
        ensures { result ≡ (if free self.now then slice_get self.now.waiting 0 else None) }
    {
        if self.path.is_full() {
            return None;
        }
        self.pages.first()
    }

    // The next copy of this page, which waits first.
    fn copy_of(&self, first: WaitingPage) -> Sheet
        ensures { result ≡ next_sheet self.now.committed first }
    {
        Sheet {
            page: first.page,
            copy: self.committed.copies.0 + 1,
            last: first.unfed == 1,
        }
    }

    // The next copy to feed, where a page waits and the path has a place.
    pub fn next(&self) -> Option<Sheet>
        ensures { result ≡ next_of self.now }
    {
        let first = self.first_to_feed()?;
        Some(self.copy_of(first))
    }

    // The next copy was fed.
    pub fn commit(&mut self)
        ensures spool { self.new ≡ commit self.old }
        ensures kept { Kept self.new }
    {
        let Some(first) = self.first_to_feed() else {
            return;
        };
        let sheet = self.copy_of(first);
        let Some(committed) = self.committed.plus(sheet) else {
            return;
        };
        self.committed = committed;
        let _ = self.path.push(sheet);
        if sheet.last {
            let _ = self.pages.take_first();
        } else {
            let unfed = first.unfed - 1;
            self.pages.set(0, WaitingPage { unfed, ..first });
        }
    }

    // The path's oldest sheet was stacked.
    pub fn stack(&mut self)
        ensures spool { self.new ≡ stack self.old }
        ensures kept { Kept self.new }
    {
        let Some(sheet) = self.path.first() else {
            return;
        };
        let Some(stacked) = self.stacked.plus(sheet) else {
            return;
        };
        let _ = self.path.take_first();
        self.stacked = stacked;
    }

    // A page with so many copies waits, or is refused.
    pub fn receive(&mut self, page: u32, copies: Copies) -> Result<(), NotReceived>
        ensures spool { Receives page copies self.old self.new result }
        ensures kept { Kept self.new }
    {
        if self.is_full() {
            return Err(NotReceived::SixteenWait);
        }
        let unfed = copies.count();
        let PageCount(count) = self.received;
        let count = count.checked_add(1).ok_or(NotReceived::PagesSpent)?;
        if self.received == self.committed.pages {
            let begun = self.committed.copies.0;
            begun.checked_add(unfed).ok_or(NotReceived::CopiesSpent)?;
        }
        let _ = self.pages.push(WaitingPage { page, unfed });
        self.received = PageCount(count);
        Ok(())
    }

    // The waiting pages are dropped; the path goes on.
    pub fn discard(&mut self)
        ensures spool { self.new ≡ discard self.old }
        ensures kept { Kept self.new }
    {
        self.pages.clear();
        self.received = self.committed.pages;
    }

    // The waiting pages and the sheets in the path are dropped.
    pub fn jam(&mut self)
        ensures spool { self.new ≡ jam self.old }
        ensures kept { Kept self.new }
    {
        *self = Spool::at(self.stacked);
    }

    // How many copies wait to be fed.
    pub fn unfed(&self) -> usize
        ensures sum { result ≡ unfed_in self.now.waiting }
        ensures most { result ≤ 4080 }
    {
        let pages = self.pages.as_slice();
        pages.iter().map(|page| usize::from(page.unfed)).sum()
    }

    pub fn counters(&self) -> Counters
        ensures { told result ≡ numbers_of self.now }
    {
        Counters {
            received: self.received,
            committed: self.committed,
            stacked: self.stacked,
        }
    }
}
