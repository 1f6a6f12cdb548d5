// The text conditions.
ghost use Rattle.std.specs.Prelude.{◌≡◌};
ghost use Rattle.text.specs.Axes.{position};
ghost use Rattle.text.specs.Canvases.{starting};

use crate::axis::Axis;
use crate::font::Font;

// Where the next character stands, inline and baseline, in 1/1440 inch, and in which font.
#[derive(Clone, Copy, Debug, PartialEq, Eq)]
pub struct TextConditions {
    pub i: u16,
    pub b: u16,
    pub font: Font,
}

impl TextConditions {
    // As a page begins.
    pub fn starting() -> TextConditions
        ensures { result ≡ starting }
    {
        TextConditions {
            i: 0,
            b: 0,
            font: Font::Ten,
        }
    }

    // The position in a direction.
    pub(crate) fn position(self, axis: Axis) -> u16
        ensures { result ≡ position axis self }
    {
        match axis {
            Axis::Inline => self.i,
            Axis::Baseline => self.b,
        }
    }
}
