// Plays a script of calls, one a line, from the standard input or from the file that is named, and answers each.
#![tactic(auto)]

mod buffers;
mod calls;
mod machines;
mod player;

use engines::{FileEngine, TrackEngine};
use machines::Machine;
use player::{Next, Player, session, skip_to_engine};
use script::EngineKind;
use std::fs::File;
use std::io::Read;
use std::rt::{Env, Files};
use std::{env, io};

// A session over an engine of so much room.
fn on<M: Machine, R: Read>(
    player: &mut Player<R>,
    bytes: &mut Vec<u8>,
    room: u32,
) -> io::Result<Next> {
    player.say_number(M::NAME, u64::from(room))?;
    // A cast, since the library has no From between `u32` and `usize`.
    let machine = M::with_room(player.heap, room as usize)?;
    let (machine, next) = session(player, bytes, machine)?;
    machine.tell(player)?;
    Ok(next)
}

// Session after session, until the script ends.
fn play<R: Read + Drop>(mut player: Player<R>) -> io::Result<()> {
    // The bytes of a call, beside the player, since the call that is made borrows them. One list for all sessions, so that it
    // grows once.
    let mut bytes = Vec::new(player.heap);
    let mut next = Next::Nothing;
    // A script has no known end, so that a loop until it ends has no measure.
    for _ in 0..u64::MAX {
        next = match next {
            Next::Engine(EngineKind::Track, room) => on::<TrackEngine, R>(
                &mut player,
                &mut bytes,
                room,
            )?,
            Next::Engine(EngineKind::File, room) => on::<FileEngine, R>(
                &mut player,
                &mut bytes,
                room,
            )?,
            Next::Nothing => skip_to_engine(&mut player, &mut bytes)?,
            Next::End => break,
        };
    }
    player.flush()
}

fn main(rt: HostRuntime) -> io::Result<()> {
    let mut args = env::args(&rt)?;
    let _program = args.next();
    match args.next() {
        Some(path) => play(Player::new(&rt, File::open(&rt, &path)?)?),
        None => play(Player::new(&rt, rt.stdin())?),
    }
}
