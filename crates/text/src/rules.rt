// Rules: bars from the position on.
ghost use Rattle.std.specs.Prelude.{◌≡◌};
ghost use Rattle.text.specs.Axes.{position, extent};
ghost use Rattle.text.specs.Rules.{spans, bar, rule};

use crate::axis::Axis;
use crate::conditions::TextConditions;
use crate::mark::Mark;
use crate::moves::shifted;
use crate::step::Step;
use refusal::Refusal;

impl TextConditions {
    // From the position by a signed number in a direction, both ends on the page.
    fn spans(self, axis: Axis, by: i16) -> bool
        ensures { result ≡ spans (position axis self) by (extent axis) }
    {
        let from = self.position(axis);
        let end = shifted(from, by);
        from <= axis.extent() && 0 <= end && end <= i32::from(axis.extent())
    }

    // The mark of a rule.
    fn bar(self, axis: Axis, length: i16, width: i16) -> Mark
        ensures { result ≡ bar axis length width self }
    {
        Mark {
            kind: axis.rule_kind(),
            i: self.i,
            b: self.b,
            first: i32::from(length),
            second: i32::from(width),
        }
    }

    // The step of a rule: it stands within the page or is refused, and one of length 0 or width 0 leaves no mark.
    pub(crate) fn rule(self, axis: Axis, length: i16, width: i16) -> Result<Step, Refusal>
        ensures { result ≡ rule axis length width self }
    {
        let mark = if length == 0 || width == 0 {
            None
        } else if self.spans(axis, length) && self.spans(axis.across(), width) {
            Some(self.bar(axis, length, width))
        } else {
            return Err(Refusal::Outside);
        };
        Ok(Step { mark, next: self })
    }
}
