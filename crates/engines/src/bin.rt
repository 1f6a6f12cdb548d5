// Where an engine stacks its sheets.
ghost use Rattle.std.specs.Prelude.{◌≡◌, ℕ, ◌-◌, List, [], ◌∷◌, ◌++◌, nat_lt, if◌then◌else◌, MatchBool};
ghost use Rattle.engine.specs.declared.sheet.Sheet.{Sheet};

use engine::Sheet;

pub trait Bin {
    // The stacked sheets, the latest last.
    ghost sheets: { Self → List Sheet };

    // How many more sheets it takes.
    ghost room: { Self → ℕ };

    // What a bin with room becomes when a sheet is stacked.
    ghost stack_gives: { Self → Sheet → Self → Type 0 };

    // Puts a sheet behind the others; refused where there is no room, and on no other ground, so yes or no tells all.
    fn stack(&mut self, sheet: Sheet) -> bool
        ensures taken { result ≡ nat_lt 0 (room self.old) }
        ensures sheets { sheets self.new ≡ (if result then sheets self.old ++ sheet ∷ [] else sheets self.old) }
        ensures room { room self.new ≡ room self.old - 1 }
        ensures gives { MatchBool result (stack_gives self.old sheet self.new) (self.new ≡ self.old) };

    // How many more sheets it takes.
    fn room(&self) -> usize
        ensures { result ≡ room self.now };
}
