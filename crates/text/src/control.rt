// The kinds of control, and the header of one.
ghost use Rattle.std.specs.Prelude.{◌≡◌, ◌<◌, ◌≤◌};
ghost use Rattle.text.specs.Controls.{kind_named, sized, named, headed, introduced, control_of};

use crate::axis::Axis;
use refusal::Refusal;

// The second byte of a control's introducer.
const CONTROL: u8 = 0xD3;

#[derive(Clone, Copy, Debug, PartialEq, Eq)]
pub enum Kind {
    // The position in a direction becomes the parameter, or moves by it.
    Absolute(Axis),
    Relative(Axis),
    SetFont,
    // The parameters are characters.
    Transparent,
    // A pattern of characters is repeated.
    Repeat,
    // A rule in a direction, from the position on.
    Rule(Axis),
}

#[derive(Clone, Copy, Debug, PartialEq, Eq)]
pub struct Control {
    pub kind: Kind,
    // Another control follows directly. It stays a flag: the type's last bit says it, and an enum of two states would
    // be made from that bit and taken apart again at each use.
    pub chained: bool,
    // Where its parameters begin and where it ends, counted from its first byte.
    pub start: usize,
    pub end: usize,
}

// The kind that a type names.
impl TryFrom<u8> for Kind {
    type Error = Refusal;

    ghost try_from_gives = { λ code r. r ≡ kind_named code };

    fn try_from(code: u8) -> Result<Kind, Refusal> {
        match code {
            0xC6 | 0xC7 => Ok(Kind::Absolute(Axis::Inline)),
            0xC8 | 0xC9 => Ok(Kind::Relative(Axis::Inline)),
            0xD2 | 0xD3 => Ok(Kind::Absolute(Axis::Baseline)),
            0xD4 | 0xD5 => Ok(Kind::Relative(Axis::Baseline)),
            0xF0 | 0xF1 => Ok(Kind::SetFont),
            0xDA | 0xDB => Ok(Kind::Transparent),
            0xEE | 0xEF => Ok(Kind::Repeat),
            0xE4 | 0xE5 => Ok(Kind::Rule(Axis::Inline)),
            0xE6 | 0xE7 => Ok(Kind::Rule(Axis::Baseline)),
            _ => Err(Refusal::BadControl),
        }
    }
}

impl Kind {
    // A length that the kind may have.
    fn sized(self, size: u8) -> bool
        ensures { result ≡ sized self size }
    {
        match self {
            Kind::Absolute(_) | Kind::Relative(_) => size == 4,
            Kind::SetFont => size == 3,
            Kind::Transparent => size >= 2,
            Kind::Repeat => size >= 4,
            Kind::Rule(_) => size == 4 || size == 7,
        }
    }
}

impl Control {
    // From its kind, its length and its type, with so many bytes before them.
    fn named(before: usize, kind: Kind, size: u8, code: u8) -> Result<Control, Refusal>
        requires { before ≤ 2 }
        ensures { result ≡ named before (Some kind) size code }
    {
        if !kind.sized(size) {
            return Err(Refusal::ControlLength);
        }
        Ok(Control {
            kind,
            chained: code % 2 == 1,
            start: before + 2,
            end: before + usize::from(size),
        })
    }

    // The control whose length is the first of the bytes. A slice pattern, which takes the length and the type at once.
    fn headed(before: usize, bytes: &[u8]) -> Result<Control, Refusal>
        requires { before ≤ 2 }
        ensures { result ≡ headed before bytes.now }
    {
        let [size, code, ..] = bytes else {
            return Err(Refusal::ControlLength);
        };
        if *size < 2 || usize::from(*size) > bytes.len() {
            return Err(Refusal::ControlLength);
        }
        Control::named(before, Kind::try_from(*code)?, *size, *code)
    }

    // The control behind its introducer.
    fn introduced(bytes: &[u8]) -> Result<Control, Refusal>
        ensures { result ≡ introduced bytes.now }
    {
        match bytes {
            [_, CONTROL, rest @ ..] => Control::headed(2, rest),
            _ => Err(Refusal::BadControl),
        }
    }

    // The control at the front of the bytes: chained, or else introduced.
    pub fn read(chained: bool, bytes: &[u8]) -> Result<Control, Refusal>
        ensures { result ≡ control_of chained bytes.now }
    {
        if chained {
            Control::headed(0, bytes)
        } else {
            Control::introduced(bytes)
        }
    }
}
