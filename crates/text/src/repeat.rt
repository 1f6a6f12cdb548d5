// A pattern of characters, repeated.
ghost use Rattle.std.specs.Prelude.{◌≡◌, ◌%◌, ◌<◌, length, slice_index};
ghost use Rattle.text.specs.Canvases.{canvas_of, out};
ghost use Rattle.text.specs.Cycles.{cycled};
ghost use Rattle.text.specs.Runs.{characters};
ghost use Rattle.text.specs.Effects.{repeated};

use crate::writer::Writer;
use refusal::Refusal;

const MOST: u16 = 32767;

// The character at a place of the pattern repeated.
fn code_at(pattern: &[u8], k: usize) -> u8
    requires { 0 < length pattern.now }
    ensures { result ≡ slice_index pattern.now (k % length pattern.now) }
{
    pattern[k % pattern.len()]
}

impl Writer<'_> {
    // So many characters of the pattern, from its first again after its last.
    fn cycle(&mut self, pattern: &[u8], times: usize) -> Result<(), Refusal>
        requires { 0 < times → 0 < length pattern.now }
        ensures same_list { self.new.marks.ghost_name ≡ self.old.marks.ghost_name }
        ensures cycle { out (canvas_of self.new) result ≡ characters (cycled times pattern.now) (canvas_of self.old) }
    {
        // Counted by place: with the library's `cycle` the proof did not close, since its loop tells no place.
        for k in 0..times {
            self.character(code_at(pattern, k))?;
        }
        Ok(())
    }

    // A number of characters from a pattern: too many, or some of an empty pattern, are refused.
    pub(crate) fn repeat(&mut self, pattern: &[u8], times: u16) -> Result<(), Refusal>
        ensures same_list { self.new.marks.ghost_name ≡ self.old.marks.ghost_name }
        ensures repeat { out (canvas_of self.new) result ≡ repeated times pattern.now (canvas_of self.old) }
    {
        if times > MOST || pattern.is_empty() && times > 0 {
            return Err(Refusal::BadControl);
        }
        self.cycle(pattern, usize::from(times))
    }
}
