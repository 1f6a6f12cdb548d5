// Characters in a row.
ghost use Rattle.std.specs.Prelude.{◌≡◌, ◌+◌, ◌^◌, ◌<◌, length};
ghost use Rattle.text.specs.Canvases.{canvas_of, out};
ghost use Rattle.text.specs.Steps.{character};
ghost use Rattle.text.specs.Runs.{characters, run};

use crate::fault::TextFault;
use crate::writer::Writer;
use refusal::Refusal;

impl Writer<'_> {
    // One character at the position.
    pub(crate) fn character(&mut self, code: u8) -> Result<(), Refusal>
        ensures same_list { self.new.marks.ghost_name ≡ self.old.marks.ghost_name }
        ensures character { out (canvas_of self.new) result ≡ character code (canvas_of self.old) }
    {
        let step = self.conditions.lettered(code)?;
        self.put(step)
    }

    // Characters from an offset on, each refused at its own. The place is counted, since a refusal tells it as its
    // offset.
    pub(crate) fn run(&mut self, codes: &[u8], at: usize) -> Result<(), TextFault>
        requires { at + length codes.now < 2 ^ 64 }
        ensures same_list { self.new.marks.ghost_name ≡ self.old.marks.ghost_name }
        ensures run { out (canvas_of self.new) result ≡ run at codes.now (canvas_of self.old) }
    {
        for (k, code) in codes.iter().enumerate() {
            self.character(*code).map_err(|refusal| TextFault {
                refusal,
                offset: at + k,
            })?;
        }
        Ok(())
    }

    // The characters of a control.
    pub(crate) fn characters(&mut self, codes: &[u8]) -> Result<(), Refusal>
        ensures same_list { self.new.marks.ghost_name ≡ self.old.marks.ghost_name }
        ensures characters { out (canvas_of self.new) result ≡ characters codes.now (canvas_of self.old) }
    {
        self.run(codes, 0).map_err(|fault| fault.refusal)
    }
}
