// Commands as bytes: length, code, flag and data.
ghost use Rattle.std.specs.Prelude.{◌≡◌};
ghost use Rattle.host.specs.Hosts.{load_copy_control, begin_page, end_page, no_operation, short_command, overlay_command, end_overlay};

// The flag of a command that requests a reply, and of one that does not.
const REQUEST: u8 = 0x80;

const QUIET: u8 = 0x00;

// A command without data, from the low byte of its code and its flag.
fn short_command(code: u8, flag: u8) -> [u8; 5]
    ensures { result ≡ short_command code flag }
{
    [0x00, 0x05, 0xD6, code, flag]
}

// A command with an overlay's ID, from the low byte of its code.
fn overlay_command(code: u8, id: u16) -> [u8; 7]
    ensures { result ≡ overlay_command code id }
{
    let [high, low] = id.to_be_bytes();
    [0x00, 0x07, 0xD6, code, QUIET, high, low]
}

// So many copies of each page from now on.
pub fn load_copy_control(copies: u8) -> [u8; 7]
    ensures { result ≡ load_copy_control copies }
{
    [0x00, 0x07, 0xD6, 0x9F, QUIET, 0x02, copies]
}

pub fn begin_page(page: u32) -> [u8; 9]
    ensures { result ≡ begin_page page }
{
    let [a, b, c, d] = page.to_be_bytes();
    [0x00, 0x09, 0xD6, 0xAF, QUIET, a, b, c, d]
}

// The end of the page, with a reply requested.
pub fn end_page() -> [u8; 5]
    ensures { result ≡ end_page }
{
    short_command(0xBF, REQUEST)
}

// Nothing but a request for a reply.
pub fn no_operation() -> [u8; 5]
    ensures { result ≡ no_operation }
{
    short_command(0x03, REQUEST)
}

// Opens the overlay with this ID: the commands that follow are stored and not obeyed.
pub fn begin_overlay(id: u16) -> [u8; 7]
    ensures { result ≡ overlay_command 0xDF id }
{
    overlay_command(0xDF, id)
}

// The end of the overlay, without a request for a reply.
pub fn end_overlay() -> [u8; 5]
    ensures { result ≡ end_overlay }
{
    short_command(0xBF, QUIET)
}

// Deletes the overlay with this ID; all of them where it is 0.
pub fn delete_overlay(id: u16) -> [u8; 7]
    ensures { result ≡ overlay_command 0xEF id }
{
    overlay_command(0xEF, id)
}

// Runs the stored commands of the overlay with this ID.
pub fn include_overlay(id: u16) -> [u8; 7]
    ensures { result ≡ overlay_command 0x7D id }
{
    overlay_command(0x7D, id)
}
