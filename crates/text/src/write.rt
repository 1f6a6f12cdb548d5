// A text.
ghost use Rattle.std.specs.Prelude.{◌≡◌, ◌≤◌, false, length, position, IfOk};
ghost use Rattle.text.specs.Canvases.{canvas, canvas_of, out, Grows};
ghost use Rattle.text.specs.Controls.{Whole};
ghost use Rattle.text.specs.Runs.{located};
ghost use Rattle.text.specs.Effects.{obeyed};
ghost use Rattle.text.specs.Judging.{Judged};
ghost use Rattle.text.specs.Laws.{Inside};
ghost use Rattle.text.specs.Texts.{begins, plain, control_at, text_of};

use crate::conditions::TextConditions;
use crate::control::Control;
use crate::fault::TextFault;
use crate::mark::Mark;
use crate::writer::Writer;

// The first byte of a control's introducer.
const INTRODUCER: u8 = 0x2B;

// A control begins at the byte.
fn begins(chained: bool, byte: u8) -> bool
    ensures { result ≡ begins chained byte }
{
    chained || byte == INTRODUCER
}

// Where the next control is introduced.
fn introducer(bytes: &[u8]) -> Option<usize>
    ensures { result ≡ position (begins false) bytes.now }
{
    bytes.iter().position(|byte| *byte == INTRODUCER)
}

// How many characters stand before the next control or the end.
#[tactic(auto, using(crate::proofs::Plain::plain_position))]
fn plain(bytes: &[u8]) -> usize
    ensures plain { result ≡ plain bytes.now }
    ensures within { result ≤ length bytes.now }
{
    introducer(bytes).unwrap_or(bytes.len())
}

// The control at the front of the bytes, refused at an offset.
fn read_at(chained: bool, bytes: &[u8], at: usize) -> Result<Control, TextFault>
    ensures control { result ≡ control_at at chained bytes.now }
    ensures whole { IfOk result (Whole (length bytes.now)) }
{
    Control::read(chained, bytes).map_err(|refusal| TextFault {
        refusal,
        offset: at,
    })
}

impl Writer<'_> {
    // What it does, refused at an offset.
    fn obey_at(&mut self, control: Control, bytes: &[u8], at: usize) -> Result<(), TextFault>
        requires { Whole (length bytes.now) control }
        ensures same_list { self.new.marks.ghost_name ≡ self.old.marks.ghost_name }
        ensures obeyed { out (canvas_of self.new) result ≡ located at (obeyed control bytes.now (canvas_of self.old)) }
    {
        self.obey(control, bytes).map_err(|refusal| TextFault {
            refusal,
            offset: at,
        })
    }

    // Plain characters and controls, from left to right. `at` is counted beside `rest`: how far a step goes only its
    // control tells, so no iterator gives the steps.
    fn write_all(&mut self, data: &[u8]) -> Result<(), TextFault>
        ensures same_list { self.new.marks.ghost_name ≡ self.old.marks.ghost_name }
        ensures text { out (canvas_of self.new) result ≡ text_of «data».now (canvas_of self.old) }
    {
        let mut rest = data;
        let mut at = 0;
        let mut chained = false;
        while let [first, ..] = rest {
            if begins(chained, *first) {
                let control = read_at(chained, rest, at)?;
                self.obey_at(control, rest, at)?;
                rest = &rest[control.end..];
                at += control.end;
                chained = control.chained;
            } else {
                let size = plain(rest);
                self.run(&rest[..size], at)?;
                rest = &rest[size..];
                at += size;
            }
        }
        Ok(())
    }

    // A text, and what holds of every text: the marks that were there stand, the count does not pass the list, nothing
    // past the marks is written, a fault lies inside the text, and it has its ground there.
    pub fn write_text(&mut self, data: &[u8]) -> Result<(), TextFault>
        ensures same_list { self.new.marks.ghost_name ≡ self.old.marks.ghost_name }
        ensures text { out (canvas_of self.new) result ≡ text_of «data».now (canvas_of self.old) }
        ensures grows { Grows (canvas_of self.old) (canvas_of self.new) }
        ensures inside { Inside (length «data».now) result }
        ensures judged { Judged false 0 «data».now (canvas_of self.old) (out (canvas_of self.new) result) }
    {
        self.write_all(data)
    }
}

// The same by a writer on a list whose count and conditions the caller holds.
pub fn write_text(
    marks: &mut [Mark],
    count: &mut usize,
    conditions: &mut TextConditions,
    data: &[u8],
) -> Result<(), TextFault>
    ensures text { out (canvas marks.new count.new conditions.new) result ≡ text_of «data».now (canvas marks.old count.old conditions.old) }
    ensures grows { Grows (canvas marks.old count.old conditions.old) (canvas marks.new count.new conditions.new) }
    ensures inside { Inside (length «data».now) result }
    ensures judged { Judged false 0 «data».now (canvas marks.old count.old conditions.old) (out (canvas marks.new count.new conditions.new) result) }
{
    let mut writer = Writer {
        marks,
        count: *count,
        conditions: *conditions,
    };
    let result = writer.write_text(data);
    *count = writer.count;
    *conditions = writer.conditions;
    result
}
