// The two directions of a page.
ghost use Rattle.std.specs.Prelude.{◌≡◌};
ghost use Rattle.text.specs.Axes.{across, extent, usual_width, rule_kind};

use crate::mark::MarkKind;

// Along a line of characters, and from one line to the next.
#[derive(Clone, Copy, Debug, PartialEq, Eq)]
pub enum Axis {
    Inline,
    Baseline,
}

impl Axis {
    // The other direction.
    pub(crate) fn across(self) -> Axis
        ensures { result ≡ across self }
    {
        match self {
            Axis::Inline => Axis::Baseline,
            Axis::Baseline => Axis::Inline,
        }
    }

    // The page's extent, in 1/1440 inch.
    pub(crate) fn extent(self) -> u16
        ensures { result ≡ extent self }
    {
        match self {
            Axis::Inline => 12240,
            Axis::Baseline => 15840,
        }
    }

    // How wide a rule in this direction is, where it does not tell.
    pub(crate) fn usual_width(self) -> i16
        ensures { result ≡ usual_width self }
    {
        match self {
            Axis::Inline => 5,
            Axis::Baseline => 4,
        }
    }

    // The kind of the mark of a rule in this direction.
    #[tactic(auto, unfolding(crate::specs::Axes::rule_kind))]
    pub(crate) fn rule_kind(self) -> u8
        ensures { result ≡ rule_kind self }
    {
        let kind = match self {
            Axis::Inline => MarkKind::InlineRule,
            Axis::Baseline => MarkKind::BaselineRule,
        };
        // The number that the enum gives; a From would write each number again.
        kind as u8
    }
}
