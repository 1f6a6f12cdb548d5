// Writing a reply to the front of the host's area; bytes behind it stay.
ghost use Rattle.std.specs.Prelude.{◌≡◌, length, if◌then◌else◌, nat_le};
ghost use Rattle.reply.specs.Replies.{ack, nack, written};
ghost use Rattle.spool.specs.Spools.{told};

use crate::bytes::{ReplyType, heading_of, sense_of};
use refusal::Fault;
use spool::Counters;

// A negative reply: its heading, then its sense bytes.
fn negative(counters: Counters, fault: Fault) -> [u8; 40]
    ensures { result ≡ nack fault (told counters) }
{
    let mut reply = [0; 40];
    let (heading, sense) = reply.split_at_mut(16);
    heading.copy_from_slice(&heading_of(40, ReplyType::Negative, counters));
    sense.copy_from_slice(&sense_of(fault));
    reply
}

// Writes a reply and tells its length: 0 where the area is too short for it. No Option: callers go on with how many bytes
// of the area are a reply, and none are 0.
fn write<const N: usize>(area: &mut [u8], reply: &[u8; N]) -> usize
    ensures length { result ≡ (if nat_le N (length area.old) then N else 0) }
    ensures area { area.new ≡ written reply.now area.old }
{
    let Some(front) = area.first_chunk_mut::<N>() else {
        return 0;
    };
    *front = *reply;
    N
}

// Writes an acknowledgement and tells its length: 0 where the area is too short for it.
pub fn acknowledge(area: &mut [u8], counters: Counters) -> usize
    ensures length { result ≡ (if nat_le 16 (length area.old) then 16 else 0) }
    ensures area { area.new ≡ written (ack (told counters)) area.old }
{
    write(area, &heading_of(16, ReplyType::Acknowledgement, counters))
}

// Writes a negative reply and tells its length: 0 where the area is too short for it.
pub fn refuse(area: &mut [u8], counters: Counters, fault: Fault) -> usize
    ensures length { result ≡ (if nat_le 40 (length area.old) then 40 else 0) }
    ensures area { area.new ≡ written (nack fault (told counters)) area.old }
{
    write(area, &negative(counters, fault))
}
