// The parts of a reply.
ghost use Rattle.std.specs.Prelude.{◌≡◌, []};
ghost use Rattle.reply.specs.Replies.{heading, type_of, sense};
ghost use Rattle.spool.specs.Spools.{told, two};

use engine::Tally;
use refusal::{Fault, Place};
use spool::Counters;

// What a reply says of the command, by its type byte.
#[derive(Clone, Copy, Debug, PartialEq, Eq)]
pub enum ReplyType {
    Acknowledgement = 0x00,
    Negative = 0x80,
}

// A tally in four bytes: its pages, then its copies.
fn tally_of(tally: Tally) -> [u8; 4]
    ensures { result ≡ two tally.pages.0 (two tally.copies.0 []) }
{
    let [p0, p1] = tally.pages.0.to_be_bytes();
    let [c0, c1] = u16::from(tally.copies.0).to_be_bytes();
    [p0, p1, c0, c1]
}

pub fn heading_of(size: u8, reply: ReplyType, counters: Counters) -> [u8; 16]
    ensures { result ≡ heading size (type_of reply) (told counters) }
{
    // The byte that the enum gives; a From would write each byte again.
    let kind = reply as u8;
    let [r0, r1] = counters.received.0.to_be_bytes();
    let [c0, c1, c2, c3] = tally_of(counters.committed);
    let [s0, s1, s2, s3] = tally_of(counters.stacked);
    [
        0x00, size, 0xD6, 0xFF, 0x00, kind, r0, r1, c0, c1, c2, c3, s0, s1, s2, s3,
    ]
}

// What is absent is told as 0.
pub fn sense_of(fault: Fault) -> [u8; 24]
    ensures { result ≡ sense fault }
{
    let Place {
        host,
        command,
        offset,
    } = fault.place.unwrap_or_default();
    let (e0, e1, e19) = fault.refusal.exception();
    let [h0, h1] = host.to_be_bytes();
    let [c0, c1] = command.to_be_bytes();
    let [o0, o1] = offset.to_be_bytes();
    let layer = u8::from(fault.refusal.layer());
    let [v0, v1] = fault.overlay.unwrap_or(0).to_be_bytes();
    let number = fault.refusal.number();
    let [p0, p1, p2, p3] = fault.page.unwrap_or(0).to_be_bytes();
    [
        e0, e1, h0, h1, c0, c1, o0, o1, layer, v0, v1, number, 0, 0, 0, 0, 0, 0, 0, e19, p0, p1,
        p2, p3,
    ]
}
