// What holds of every text, whatever its bytes.
ghost use Rattle.std.specs.Prelude.{◌≡◌};
ghost use Rattle.text.specs.Judging.{GroundsDecide};
ghost use Rattle.text.specs.Laws.{Unbounded, Repeats};

// The bound on the steps of a walk never cuts it short; a pattern repeated is what its words say; a text is refused
// where a ground is met, and accepted where none is.
pub fn laws_stand() -> u8
    ensures answer { result ≡ 0 }
    ensures unbounded { Unbounded }
    ensures repeats { Repeats }
    ensures grounds { GroundsDecide }
{
    0
}
