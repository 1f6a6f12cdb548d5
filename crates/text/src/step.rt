// What one character or control does where the text stands.
ghost use Rattle.std.specs.Prelude.{◌≡◌};
ghost use Rattle.text.specs.Steps.{marked, lettered};

use crate::axis::Axis;
use crate::conditions::TextConditions;
use crate::mark::{Mark, MarkKind};
use refusal::Refusal;

const SPACE: u8 = 0x40;

#[derive(Clone, Copy, Debug, PartialEq, Eq)]
pub struct Step {
    // The mark that it leaves, if any.
    pub mark: Option<Mark>,
    // The conditions after it.
    pub next: TextConditions,
}

impl TextConditions {
    // The mark of a character.
    fn marked(self, code: u8) -> Mark
        ensures { result ≡ marked code self }
    {
        Mark {
            // The number that the enum gives; a From would write each number again.
            kind: MarkKind::Character as u8,
            i: self.i,
            b: self.b,
            first: i32::from(code),
            second: i32::from(self.font.number()),
        }
    }

    // The step of a character: it stands within the page or is refused, and a space leaves no mark.
    pub(crate) fn lettered(self, code: u8) -> Result<Step, Refusal>
        ensures { result ≡ lettered code self }
    {
        let advance = self.font.advance(code);
        let edge = Axis::Inline.extent();
        if self.i > edge || advance > edge - self.i || self.b > Axis::Baseline.extent() {
            return Err(Refusal::Outside);
        }
        let mark = if code == SPACE {
            None
        } else {
            Some(self.marked(code))
        };
        Ok(Step {
            mark,
            next: TextConditions {
                i: self.i + advance,
                ..self
            },
        })
    }
}
