// Writing on a list of marks.
ghost use Rattle.std.specs.Prelude.{◌≡◌};
ghost use Rattle.text.specs.Canvases.{canvas_of, out};
ghost use Rattle.text.specs.Steps.{put};

use crate::conditions::TextConditions;
use crate::mark::Mark;
use crate::step::Step;
use refusal::Refusal;

// The list is the caller's. New marks go to its places from the count on, in place. Clauses name `canvas_of` of it, and
// each method says that the list is still the same one: a model would hide the list, and a type cannot speak of before
// and after.
#[derive(Drop)]
pub struct Writer<'a> {
    pub marks: &'a mut [Mark],
    // How many places are in use.
    pub count: usize,
    pub conditions: TextConditions,
}

impl Writer<'_> {
    // A step is taken: its mark goes to the first free place, where there is one. No mark is written anywhere else.
    pub(crate) fn put(&mut self, step: Step) -> Result<(), Refusal>
        ensures same_list { self.new.marks.ghost_name ≡ self.old.marks.ghost_name }
        ensures put { out (canvas_of self.new) result ≡ put step.mark step.next (canvas_of self.old) }
    {
        if let Some(mark) = step.mark {
            if self.count >= self.marks.len() {
                return Err(Refusal::MarksFull);
            }
            self.marks[self.count] = mark;
            self.count += 1;
        }
        self.conditions = step.next;
        Ok(())
    }
}
