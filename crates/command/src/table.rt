// The table of command codes, each with its data length and the states that allow it.
ghost use Rattle.std.specs.Prelude.{◌≡◌};
ghost use Rattle.command.specs.Tables.{row_of, fits, permits};

use crate::state::State;

// Which command a code names.
#[derive(Clone, Copy, Debug, PartialEq, Eq)]
pub enum Kind {
    BeginPage,
    EndPage,
    LoadCopyControl,
    NoOperation,
    SetHomeState,
    ExecuteOrderAnyState,
}

// No Option<usize>: in a row of the table `Any` says what None would not.
#[derive(Clone, Copy, Debug, PartialEq, Eq)]
pub enum DataLength {
    Exactly(usize),
    Any,
}

#[derive(Clone, Copy, Debug, PartialEq, Eq)]
pub enum Allowed {
    // In home state.
    Home,
    // Where something is open.
    Open,
    // In every state.
    Every,
}

#[derive(Clone, Copy, Debug, PartialEq, Eq)]
pub struct Row {
    pub code: u16,
    pub kind: Kind,
    pub length: DataLength,
    pub allowed: Allowed,
}

const TABLE: [Row; 6] = [
    Row {
        code: 0xD6AF,
        kind: Kind::BeginPage,
        length: DataLength::Exactly(4),
        allowed: Allowed::Home,
    },
    Row {
        code: 0xD69F,
        kind: Kind::LoadCopyControl,
        length: DataLength::Exactly(2),
        allowed: Allowed::Home,
    },
    Row {
        code: 0xD6BF,
        kind: Kind::EndPage,
        length: DataLength::Any,
        allowed: Allowed::Open,
    },
    Row {
        code: 0xD603,
        kind: Kind::NoOperation,
        length: DataLength::Any,
        allowed: Allowed::Every,
    },
    Row {
        code: 0xD697,
        kind: Kind::SetHomeState,
        length: DataLength::Any,
        allowed: Allowed::Every,
    },
    Row {
        code: 0xD633,
        kind: Kind::ExecuteOrderAnyState,
        length: DataLength::Exactly(2),
        allowed: Allowed::Every,
    },
];

impl DataLength {
    pub fn fits(self, length: usize) -> bool
        ensures { result ≡ fits self length }
    {
        match self {
            DataLength::Exactly(n) => length == n,
            DataLength::Any => true,
        }
    }
}

impl Allowed {
    pub fn permits(self, state: State) -> bool
        ensures { result ≡ permits self state }
    {
        match (self, state) {
            (Allowed::Every, _) => true,
            (Allowed::Home, State::Home) => true,
            (Allowed::Home, State::Page(_)) => false,
            (Allowed::Open, State::Home) => false,
            (Allowed::Open, State::Page(_)) => true,
        }
    }
}

// The row of a code.
pub fn find(code: u16) -> Option<Row>
    ensures { result ≡ row_of code }
{
    TABLE.iter().find(|row| row.code == code).copied()
}
