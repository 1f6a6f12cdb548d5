// An engine with a path of `K` places over a bin.
ghost use Rattle.std.specs.Prelude.{◌<◌, ◌≤◌, length};

use crate::bin::Bin;
use engine::{Advanced, Engine, Sheet};
use queue::Queue;

#[derive(Drop)]
pub struct PathEngine<B: Bin, const K: usize> {
    pub(crate) bin: B,
    pub(crate) path: Queue<Sheet, K>,
    ghost some: { 0 < K },
    ghost few: { K ≤ 8 },
    ghost short: { length path ≤ K },
}

impl<B: Bin, const K: usize> PathEngine<B, K> {
    ghost use Rattle.std.specs.Prelude.{◌≡◌, ◌<◌, ◌≤◌, []};

    // An engine with an empty path over a bin.
    pub(crate) fn over(bin: B) -> PathEngine<B, K>
        requires some { 0 < K }
        requires few { K ≤ 8 }
        ensures bin { result.bin ≡ bin }
        ensures path { result.path ≡ [] }
    {
        PathEngine {
            bin,
            path: Queue::new(Sheet::default()),
        }
    }
}

// The trait's clauses stand again, in words of `paper_of`, since each call says of the bin itself too.
impl<B: Bin, const K: usize> Engine for PathEngine<B, K> {
    ghost use Rattle.std.specs.Prelude.{◌≡◌, length};
    ghost use Rattle.engine.specs.Engines.{taken, fed, advance, advanced, purged};
    ghost use Rattle.engines.specs.Paths.{paper_of, path_sound, AsAnswered};

    ghost K = { K };

    const K: usize = K;

    ghost paper = { paper_of };

    ghost sound = { path_sound };

    fn feed(&mut self, sheet: Sheet) -> bool
        ensures taken { result ≡ taken K (paper_of self.old) }
        ensures paper { paper_of self.new ≡ fed K sheet (paper_of self.old) }
        ensures bin { self.new.bin ≡ self.old.bin }
    {
        self.path.push(sheet)
    }

    fn advance(&mut self) -> Advanced
        ensures answer { result ≡ advanced (paper_of self.old) }
        ensures paper { paper_of self.new ≡ advance (paper_of self.old) }
        ensures bin { AsAnswered B.stack_gives result self.old.bin self.new.bin }
    {
        let Some(sheet) = self.path.first() else {
            return Advanced::PathEmpty;
        };
        if !self.bin.stack(sheet) {
            return Advanced::BinFull;
        }
        let _ = self.path.take_first();
        Advanced::Stacked(sheet)
    }

    fn purge(&mut self) -> usize
        ensures count { result ≡ length self.old.path }
        ensures paper { paper_of self.new ≡ purged (paper_of self.old) }
        ensures bin { self.new.bin ≡ self.old.bin }
    {
        let count = self.path.len();
        self.path.clear();
        count
    }

    fn room(&self) -> usize {
        self.bin.room()
    }

    fn path_count(&self) -> usize {
        self.path.len()
    }
}
