// A reply as the host reads it.
ghost use Rattle.std.specs.Prelude.{◌≡◌, ◌+◌, ◌<◌, length};
ghost use Rattle.host.specs.Hosts.{two_at, counted_at, number_in, reply_in};

// So many complete pages, and so many copies of the page behind them. No tally of the engine: a host reads two bytes of
// copies, which are more than a tally holds.
#[derive(Clone, Copy, PartialEq, Eq, Debug)]
pub struct Counted {
    pub pages: u16,
    pub copies: u16,
}

#[derive(Clone, Copy, PartialEq, Eq, Debug)]
pub struct Reply {
    pub received: u16,
    pub committed: Counted,
    pub stacked: Counted,
    // The number of the refusal that a negative reply tells; None in an acknowledgement. As a number,
    // since 7 stands for two refusals.
    pub number: Option<u8>,
}

// The two bytes at a place, the high one first. A pattern would name sixteen bytes where five numbers are read, which is
// no plainer. The crate `text` reads two bytes too; the host's side and text know nothing of each other.
fn two_at(bytes: &[u8], at: usize) -> u16
    requires { at + 1 < length bytes.now }
    ensures { result ≡ two_at bytes.now at }
{
    u16::from_be_bytes([bytes[at], bytes[at + 1]])
}

// Pages, and behind them copies.
fn counted_at(bytes: &[u8], at: usize) -> Counted
    requires { at + 3 < length bytes.now }
    ensures { result ≡ counted_at bytes.now at }
{
    Counted {
        pages: two_at(bytes, at),
        copies: two_at(bytes, at + 2),
    }
}

// The number in the sense bytes of a negative reply.
fn number_in(bytes: &[u8]) -> Option<u8>
    ensures { result ≡ number_in bytes.now }
{
    if bytes.len() == 40 {
        Some(bytes[27])
    } else {
        None
    }
}

impl Reply {
    // None where the bytes are no reply: sixteen bytes for an acknowledgement, forty for a negative one.
    pub fn read(bytes: &[u8]) -> Option<Reply>
        ensures { result ≡ reply_in bytes.now }
    {
        if bytes.len() != 16 && bytes.len() != 40 {
            return None;
        }
        if two_at(bytes, 2) != 0xD6FF {
            return None;
        }
        Some(Reply {
            received: two_at(bytes, 6),
            committed: counted_at(bytes, 8),
            stacked: counted_at(bytes, 12),
            number: number_in(bytes),
        })
    }
}
