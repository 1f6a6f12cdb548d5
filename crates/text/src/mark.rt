// The marks on a page.

// A mark is numbers: a list of marks may also be handed in by a caller, with kinds, codes and fonts that have to be
// refused, so an enum of what can be drawn would be too narrow.
#[derive(Clone, Copy, Debug, Default, PartialEq, Eq)]
pub struct Mark {
    // 1 a character, 2 a rule in the inline direction, 3 a rule in the baseline direction.
    pub kind: u8,
    // Its position: inline and baseline, in 1/1440 inch.
    pub i: u16,
    pub b: u16,
    // A character's code, or a rule's length.
    pub first: i32,
    // A character's font, or a rule's width.
    pub second: i32,
}

// The kinds of the marks that text leaves.
#[derive(Clone, Copy, Debug, PartialEq, Eq)]
pub(crate) enum MarkKind {
    Character = 1,
    InlineRule = 2,
    BaselineRule = 3,
}
