// Controls that change the conditions.
ghost use Rattle.std.specs.Prelude.{◌≡◌, pos, ◌+ℤ◌};
ghost use Rattle.text.specs.Moves.{place, moved, fonted};

use crate::axis::Axis;
use crate::conditions::TextConditions;
use crate::font::Font;
use crate::step::Step;
use refusal::Refusal;

// From a position by a signed number.
pub fn shifted(from: u16, by: i16) -> i32
    ensures { result ≡ pos from +ℤ by }
{
    i32::from(from) + i32::from(by)
}

// A position from a signed number, where it is one.
fn place(to: i32) -> Result<u16, Refusal>
    ensures { result ≡ place to }
{
    match u16::try_from(to) {
        Ok(to) if to <= 32767 => Ok(to),
        _ => Err(Refusal::Outside),
    }
}

impl TextConditions {
    pub(crate) fn moved(self, axis: Axis, to: i32) -> Result<Step, Refusal>
        ensures { result ≡ moved axis to self }
    {
        let to = place(to)?;
        let next = match axis {
            Axis::Inline => TextConditions { i: to, ..self },
            Axis::Baseline => TextConditions { b: to, ..self },
        };
        Ok(Step { mark: None, next })
    }

    pub(crate) fn fonted(self, number: u8) -> Result<Step, Refusal>
        ensures { result ≡ fonted number self }
    {
        let font = Font::try_from(number)?;
        Ok(Step {
            mark: None,
            next: TextConditions { font, ..self },
        })
    }
}
