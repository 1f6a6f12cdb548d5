// What a print engine is to a printer end.
ghost use Rattle.std.specs.Prelude.{◌≡◌, ℕ, length};
ghost use Rattle.engine.specs.declared.sheet.Sheet.{Sheet};
ghost use Rattle.engine.specs.Engines.{Paper, taken, fed, advance, advanced, purged, Sound};

use crate::sheet::{Advanced, Sheet};

pub trait Engine {
    // How many sheets the path holds at most: from 1 to 8.
    ghost K: { ℕ };

    const K: usize;

    // The sheets that were fed and not yet stacked, the stacked ones, and how many more of these the bin takes.
    ghost paper: { Self → Paper };

    // What holds of the engine at any time.
    ghost sound: { (e : Self) → Sound K (paper e).path };

    // Puts a sheet at the end of the path; refused where the path is full, and on no other ground, so yes or no tells all.
    fn feed(&mut self, sheet: Sheet) -> bool
        ensures taken { result ≡ taken K (paper self.old) }
        ensures paper { paper self.new ≡ fed K sheet (paper self.old) };

    // Moves the path's oldest sheet to the end of the bin.
    fn advance(&mut self) -> Advanced
        ensures answer { result ≡ advanced (paper self.old) }
        ensures paper { paper self.new ≡ advance (paper self.old) };

    // Empties the path and tells how many sheets it held.
    fn purge(&mut self) -> usize
        ensures count { result ≡ length (paper self.old).path }
        ensures paper { paper self.new ≡ purged (paper self.old) };

    // How many more sheets the bin takes.
    fn room(&self) -> usize
        ensures { result ≡ (paper self.now).room };

    // How many sheets are in the path.
    fn path_count(&self) -> usize
        ensures { result ≡ length (paper self.now).path };
}
