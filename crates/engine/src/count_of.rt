// Tallies of sheets.
ghost use Rattle.std.specs.Prelude.{◌≡◌, List};
ghost use Rattle.std.specs.Option.{option_map};
ghost use Rattle.engine.specs.declared.sheet.Sheet.{Sheet as Paper};
ghost use Rattle.engine.specs.Sheets.{pair, Tallied};
ghost use Rattle.engine.specs.Tallies.{counted, plus_of, tally_in};

use crate::count::{CopyCount, PageCount, Tally};
use crate::sheet::Sheet;

impl Tally {
    // Nothing is counted.
    pub fn none() -> Tally
        ensures { counted result ≡ pair 0 0 }
    {
        Tally::default()
    }

    // The tally with one more sheet; None where a count cannot grow.
    pub fn plus(self, sheet: Sheet) -> Option<Tally>
        ensures { option_map counted result ≡ plus_of (counted self) sheet }
    {
        if sheet.last {
            let pages = self.pages.0.checked_add(1)?;
            Some(Tally {
                pages: PageCount(pages),
                copies: CopyCount::default(),
            })
        } else {
            let copies = self.copies.0.checked_add(1)?;
            Some(Tally {
                copies: CopyCount(copies),
                ..self
            })
        }
    }

    // The tally of a list of sheets; None where a count cannot hold it.
    pub fn of(sheets: &[Sheet]) -> Option<Tally>
        ensures tally { option_map counted result ≡ tally_in (pair 0 0) sheets.now }
        ensures words { (ss : List Paper) → Tallied ss }
    {
        // A loop: with the library's `try_fold` the proof did not close.
        let mut tally = Tally::none();
        for sheet in sheets {
            tally = tally.plus(*sheet)?;
        }
        Some(tally)
    }
}
