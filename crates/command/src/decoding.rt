// The checks of a command that come before it is obeyed.
ghost use Rattle.std.specs.Prelude.{◌≡◌};
ghost use Rattle.command.specs.Commands.{decoded};

use crate::header::Header;
use crate::reading::read;
use crate::state::{Command, State};
use crate::table::find;
use refusal::Refusal;

// The command that a header and its data make in a state.
pub fn decode(state: State, header: Header, data: &[u8]) -> Result<Command, Refusal>
    ensures { result ≡ decoded state header «data».now }
{
    let row = find(header.code).ok_or(Refusal::UnknownCode)?;
    if !row.allowed.permits(state) {
        return Err(Refusal::NotAllowed);
    }
    if !row.length.fits(data.len()) {
        return Err(Refusal::DataLength);
    }
    if !header.has_plain_flag() {
        return Err(Refusal::NotAccepted);
    }
    read(row.kind, data)
}
