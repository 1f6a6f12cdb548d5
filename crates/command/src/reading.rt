// Reading a command's data.
ghost use Rattle.std.specs.Prelude.{◌≡◌};
ghost use Rattle.command.specs.Commands.{page_in, copies_in, order_in, read_as};

use crate::state::Command;
use crate::table::Kind;
use refusal::Refusal;

const DISCARD_BUFFERED_DATA: u16 = 0xF200;

fn begin_page(data: &[u8]) -> Result<Command, Refusal>
    ensures { result ≡ page_in «data».now }
{
    let page = <[u8; 4]>::try_from(data).map_err(|_| Refusal::DataLength)?;
    Ok(Command::BeginPage(u32::from_be_bytes(page)))
}

fn load_copy_control(data: &[u8]) -> Result<Command, Refusal>
    ensures { result ≡ copies_in «data».now }
{
    // A slice pattern: it takes the entry's length and tells both grounds apart at once.
    match data {
        [2, copies] => Ok(Command::LoadCopyControl(*copies)),
        [_, _] => Err(Refusal::NotAccepted),
        _ => Err(Refusal::DataLength),
    }
}

fn execute_order(data: &[u8]) -> Result<Command, Refusal>
    ensures { result ≡ order_in «data».now }
{
    let order = <[u8; 2]>::try_from(data).map_err(|_| Refusal::DataLength)?;
    if u16::from_be_bytes(order) == DISCARD_BUFFERED_DATA {
        Ok(Command::DiscardBufferedData)
    } else {
        Err(Refusal::NotAccepted)
    }
}

// The command that a kind's data makes.
pub fn read(kind: Kind, data: &[u8]) -> Result<Command, Refusal>
    ensures { result ≡ read_as kind «data».now }
{
    match kind {
        Kind::BeginPage => begin_page(data),
        Kind::EndPage => Ok(Command::EndPage),
        Kind::LoadCopyControl => load_copy_control(data),
        Kind::NoOperation => Ok(Command::NoOperation),
        Kind::SetHomeState => Ok(Command::SetHomeState),
        Kind::ExecuteOrderAnyState => execute_order(data),
    }
}
