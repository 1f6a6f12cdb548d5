// What a control does.
ghost use Rattle.std.specs.Prelude.{◌≡◌, ◌+◌, ◌<◌, true, ◌&&◌, length, ◌==◌};
ghost use Rattle.text.specs.Axes.{usual_width};
ghost use Rattle.text.specs.Canvases.{canvas_of, out};
ghost use Rattle.text.specs.Controls.{sized, Whole};
ghost use Rattle.text.specs.Effects.{two, word, width, effect, obeyed};

use crate::axis::Axis;
use crate::control::{Control, Kind};
use crate::moves::shifted;
use crate::writer::Writer;
use refusal::Refusal;

// Two bytes as a signed number. `word` and `two` are two: signed and unsigned numbers read their bytes by methods of
// their own, so that one function would need a trait for two calls.
fn word(parameters: &[u8], k: usize) -> i16
    requires { k + 1 < length parameters.now }
    ensures { result ≡ word parameters.now k }
{
    i16::from_be_bytes([parameters[k], parameters[k + 1]])
}

// The first two bytes as they are. The host's side reads two bytes too, and knows nothing of text.
fn two(parameters: &[u8]) -> u16
    requires { 1 < length parameters.now }
    ensures { result ≡ two parameters.now 0 }
{
    u16::from_be_bytes([parameters[0], parameters[1]])
}

// A rule's width: omitted, or with every bit set, it is the usual one.
fn width(parameters: &[u8], axis: Axis) -> i16
    ensures { result ≡ width (usual_width axis) parameters.now }
{
    if parameters.len() < 4 {
        return axis.usual_width();
    }
    match word(parameters, 2) {
        -1 => axis.usual_width(),
        width => width,
    }
}

// The bytes end where another control is to follow.
fn lacks_successor(control: Control, size: usize) -> bool
    ensures { result ≡ (control.chained && size == control.end) }
{
    control.chained && size == control.end
}

impl Writer<'_> {
    // What a kind of control does with its parameters.
    fn perform(&mut self, kind: Kind, parameters: &[u8]) -> Result<(), Refusal>
        requires { sized kind (length parameters.now + 2) ≡ true }
        ensures same_list { self.new.marks.ghost_name ≡ self.old.marks.ghost_name }
        ensures effect { out (canvas_of self.new) result ≡ effect kind parameters.now (canvas_of self.old) }
    {
        let t = self.conditions;
        match kind {
            Kind::Absolute(axis) => self.put(t.moved(axis, i32::from(word(parameters, 0)))?),
            Kind::Relative(axis) => {
                let to = shifted(t.position(axis), word(parameters, 0));
                self.put(t.moved(axis, to)?)
            }
            Kind::SetFont => self.put(t.fonted(parameters[0])?),
            Kind::Transparent => self.characters(parameters),
            Kind::Repeat => self.repeat(&parameters[2..], two(parameters)),
            Kind::Rule(axis) => {
                self.put(t.rule(axis, word(parameters, 0), width(parameters, axis))?)
            }
        }
    }

    // A control at the front of the bytes. One that is chained to the end of the bytes is refused after its effect.
    pub(crate) fn obey(&mut self, control: Control, bytes: &[u8]) -> Result<(), Refusal>
        requires { Whole (length bytes.now) control }
        ensures same_list { self.new.marks.ghost_name ≡ self.old.marks.ghost_name }
        ensures obeyed { out (canvas_of self.new) result ≡ obeyed control bytes.now (canvas_of self.old) }
    {
        self.perform(control.kind, &bytes[control.start..control.end])?;
        if lacks_successor(control, bytes.len()) {
            return Err(Refusal::BadControl);
        }
        Ok(())
    }
}
