// Why a text is refused, and where. It is made where a refusal is handed on, by a closure that knows the offset: a function
// would need that closure too.
use refusal::Refusal;

#[derive(Clone, Copy, Debug, PartialEq, Eq)]
pub struct TextFault {
    pub refusal: Refusal,
    // The offset in the text: of a character, of a control's introducer, or of a chained control's length.
    pub offset: usize,
}
