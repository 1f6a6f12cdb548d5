// The header of a command.
ghost use Rattle.std.specs.Prelude.{◌≡◌, drop, Some, None};
ghost use Rattle.command.specs.Headers.{header_from, header_of, in_range, asks_reply, plain_flag};
ghost use Rattle.command.specs.Tables.{kind_of};

use crate::table::{Kind, find};

#[derive(Clone, Copy, Debug, PartialEq, Eq)]
pub struct Header {
    // How many bytes the command has, the length's own two counted.
    pub length: u16,
    pub code: u16,
    pub flag: u8,
}

impl Header {
    // Length, code and flag from their bytes.
    fn of(length: [u8; 2], code: [u8; 2], flag: u8) -> Header
        ensures { result ≡ header_from length code flag }
    {
        Header {
            length: u16::from_be_bytes(length),
            code: u16::from_be_bytes(code),
            flag,
        }
    }

    // The header at the front of the bytes, and the bytes behind it.
    pub fn read(bytes: &[u8]) -> Option<(Header, &[u8])>
        ensures { elim result [ None ↦ header_of bytes.now ≡ None | Some p ↦ (header_of bytes.now ≡ Some p.0) × (p.1.now ≡ drop 5 bytes.now) ] }
    {
        // A slice pattern: it takes length, code and flag apart at once.
        let [l0, l1, c0, c1, flag, rest @ ..] = bytes else {
            return None;
        };
        let header = Header::of([*l0, *l1], [*c0, *c1], *flag);
        Some((header, rest))
    }

    // The command that the code names.
    pub fn kind(self) -> Option<Kind>
        ensures { result ≡ kind_of self.code }
    {
        find(self.code).map(|row| row.kind)
    }

    pub fn in_range(self) -> bool
        ensures { result ≡ in_range self }
    {
        (5..=32767).contains(&self.length)
    }

    pub fn asks_reply(self) -> bool
        ensures { result ≡ asks_reply self }
    {
        self.flag >= 0x80
    }

    // No bit but the one that requests a reply.
    pub fn has_plain_flag(self) -> bool
        ensures { result ≡ plain_flag self }
    {
        self.flag == 0 || self.flag == 0x80
    }
}
