// Why a command is refused: the grounds, their numbers, and what the host is told of each.
#![tactic(auto)]

ghost use Rattle.std.specs.Prelude.{◌≡◌};
ghost use Rattle.refusal.specs.Refusals.{number_of, layer_number, found_by, exception_of, names_overlay};

// What finds a fault.
#[derive(Clone, Copy, Debug, PartialEq, Eq)]
pub enum Layer {
    Commands,
    Overlays,
    Text,
}

// The grounds, each with its number.
#[derive(Clone, Copy, Debug, PartialEq, Eq)]
pub enum Refusal {
    // Fewer than five bytes, or fewer than the length tells.
    Incomplete,
    // The reply area or the memory is too short.
    AreaShort,
    // A length below 5 or above 32,767, or past the end of a stored overlay.
    LengthOutOfRange,
    // A code that is not in the table.
    UnknownCode,
    // Not the code's data length.
    DataLength,
    // A flag, a value or an order that is not accepted.
    NotAccepted,
    // A text control whose length is absent, below 2, past the data or not its type's.
    ControlLength,
    // A text control that is wrong in another way.
    BadControl,
    // A position, a character or a rule outside its limits.
    Outside,
    // An overlay ID outside its range.
    IdOutOfRange,
    // The end of a page while sixteen wait.
    SixteenWait,
    // A command that the state does not allow.
    NotAllowed,
    // The end of a page at 65,535 received pages.
    PagesSpent,
    // The end of a page that would come to more than 255 copies.
    CopiesSpent,
    // The beginning of an overlay that is stored.
    AlreadyStored,
    // An overlay that is not stored.
    NotStored,
    // An overlay that is already being included.
    IncludesItself,
    // A ninth level of inclusion.
    TooDeep,
    // A 65th overlay, or bytes to store that do not fit.
    StoreFull,
    // Paper was lost in a jam.
    PaperLost,
    // The mark list is full.
    MarksFull,
    // Discarded while a negative reply is pending.
    ReplyPending,
}

// Where in the host's commands a fault was found.
#[derive(Clone, Copy, Debug, Default, PartialEq, Eq)]
pub struct Place {
    // The code of the host's command.
    pub host: u16,
    // The code of the innermost command.
    pub command: u16,
    // Where in its data.
    pub offset: u16,
}

// A refusal that the host is told of, with what was at hand when it came about.
#[derive(Clone, Copy, Debug, PartialEq, Eq)]
pub struct Fault {
    pub refusal: Refusal,
    // None where no command is to blame.
    pub place: Option<Place>,
    // The overlay's ID.
    pub overlay: Option<u16>,
    // The ID of the page then open.
    pub page: Option<u32>,
}

impl From<Layer> for u8 {
    ghost from_gives = { λ layer number. number ≡ layer_number layer };

    // Sense byte 8.
    fn from(layer: Layer) -> u8 {
        match layer {
            Layer::Commands => 1,
            Layer::Overlays => 2,
            Layer::Text => 3,
        }
    }
}

impl Refusal {
    // No From: two grounds have one number, so it is not the ground in another type.
    pub fn number(self) -> u8
        ensures { result ≡ number_of self }
    {
        match self {
            Refusal::Incomplete => 1,
            Refusal::AreaShort => 2,
            Refusal::LengthOutOfRange => 3,
            Refusal::UnknownCode => 4,
            Refusal::DataLength => 5,
            Refusal::NotAccepted => 6,
            Refusal::ControlLength | Refusal::BadControl => 7,
            Refusal::Outside => 8,
            Refusal::IdOutOfRange => 9,
            Refusal::SixteenWait => 10,
            Refusal::NotAllowed => 11,
            Refusal::PagesSpent => 12,
            Refusal::CopiesSpent => 13,
            Refusal::AlreadyStored => 14,
            Refusal::NotStored => 15,
            Refusal::IncludesItself => 16,
            Refusal::TooDeep => 17,
            Refusal::StoreFull => 18,
            Refusal::PaperLost => 19,
            Refusal::MarksFull => 20,
            Refusal::ReplyPending => 21,
        }
    }

    // The layer that found it.
    pub fn layer(self) -> Layer
        ensures { result ≡ found_by self }
    {
        match self {
            Refusal::ControlLength | Refusal::BadControl | Refusal::Outside | Refusal::MarksFull =>
                Layer::Text,
            Refusal::IdOutOfRange
            | Refusal::AlreadyStored
            | Refusal::NotStored
            | Refusal::IncludesItself
            | Refusal::TooDeep
            | Refusal::StoreFull => Layer::Overlays,
            _ => Layer::Commands,
        }
    }

    // The exception code: sense bytes 0, 1 and 19.
    pub fn exception(self) -> (u8, u8, u8)
        ensures { result ≡ exception_of self }
    {
        match self {
            Refusal::UnknownCode => (0x80, 0x01, 0x00),
            Refusal::ControlLength => (0x02, 0x1E, 0x01),
            Refusal::NotStored => (0x02, 0x92, 0x01),
            Refusal::IncludesItself => (0x02, 0x93, 0x01),
            Refusal::TooDeep => (0x02, 0x97, 0x01),
            Refusal::PaperLost => (0x40, 0x00, self.number()),
            _ => (0x02, 0x00, self.number()),
        }
    }

    // Whether the overlay that the host is told of is the one that the command asked for.
    pub fn names_overlay(self) -> bool
        ensures { result ≡ names_overlay self }
    {
        matches!(
            self,
            Refusal::IdOutOfRange
                | Refusal::AlreadyStored
                | Refusal::NotStored
                | Refusal::IncludesItself
                | Refusal::TooDeep
        )
    }
}
