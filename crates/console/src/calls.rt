// Makes one call and adds its answer.
use crate::buffers::Buffers;
use crate::player::Player;
use engine::{Advanced, Engine};
use printer::Printer;
use script::Call;
use std::alloc::{AllocError, Global};
use std::io;
use std::io::Read;

// A printer end, with the areas that its takes are given.
#[derive(Drop)]
pub struct Session<E: Engine> {
    printer: Printer<E>,
    buffers: Buffers,
}

impl<E: Engine + Drop> Session<E> {
    pub(crate) fn new(heap: Global, engine: E) -> Result<Session<E>, AllocError> {
        Ok(Session {
            printer: Printer::new(engine),
            buffers: Buffers::new(heap)?,
        })
    }

    pub(crate) fn into_engine(self) -> E {
        let Session {
            printer,
            buffers: _,
        } = self;
        printer.into_engine()
    }

    fn take<R: Read>(&mut self, player: &mut Player<R>, bytes: &[u8]) -> io::Result<()> {
        let taken = self.buffers.take(&mut self.printer, bytes);
        let size = taken.reply;
        let line = lines::take_line(player.heap, taken.used, taken.number(), size, taken.marks)?;
        player.say(&line)?;
        if size > 0 {
            player.say_bytes("reply", self.buffers.reply(size))?;
        }
        Ok(())
    }

    fn turn<R: Read>(&mut self, player: &mut Player<R>) -> io::Result<()> {
        let turned = self.printer.turn();
        match turned.advanced {
            Advanced::Stacked(s) => {
                let end = if turned.fed { " fed=1" } else { " fed=0" };
                let line = lines::sheet_line(player.heap, "turn stacked ", s, end)?;
                player.say(&line)
            }
            Advanced::PathEmpty => player.say_number("turn path-empty fed=", u64::from(turned.fed)),
            Advanced::BinFull => player.say_number("turn bin-full fed=", u64::from(turned.fed)),
        }
    }

    fn counters<R: Read>(&self, player: &mut Player<R>) -> io::Result<()> {
        let c = self.printer.counters();
        let line = lines::counters_line(
            player.heap,
            u64::from(c.received.0),
            lines::counts(c.committed),
            lines::counts(c.stacked),
        )?;
        player.say(&line)
    }

    // Casts here and below, since the library has no From between `usize` and `u64`, nor between `u32` and `usize`.
    fn marks<R: Read>(&self, player: &mut Player<R>) -> io::Result<()> {
        let placed = self.buffers.placed();
        player.say_number("marks ", placed.len() as u64)?;
        for m in placed {
            let line = lines::mark_line(
                player.heap,
                u32::from(m.kind),
                i64::from(m.i),
                i64::from(m.b),
                i64::from(m.first),
                i64::from(m.second),
            )?;
            player.say(&line)?;
        }
        Ok(())
    }

    pub(crate) fn perform<R: Read>(
        &mut self,
        player: &mut Player<R>,
        call: Call<&[u8]>,
    ) -> io::Result<()> {
        match call {
            Call::Take(bytes) => self.take(player, bytes)?,
            Call::Turn(times) => {
                for _ in 0..times {
                    self.turn(player)?;
                    player.flush_much()?;
                }
            }
            Call::Jam => {
                self.printer.jam();
                player.say("jam\n")?;
            }
            Call::Counters => self.counters(player)?,
            Call::Owed => player.say_number("owed ", self.printer.owed() as u64)?,
            Call::Marks => self.marks(player)?,
            Call::Areas(areas) => {
                self.buffers.resize(areas);
                let line = lines::areas_line(player.heap, areas)?;
                player.say(&line)?;
            }
            Call::Memory { at, size } => {
                let bytes = self.buffers.memory(at, size);
                let line = lines::memory_line(player.heap, at, bytes)?;
                player.say(&line)?;
            }
            Call::Poke { at, bytes } => {
                self.buffers.poke(at, bytes);
                player.say_number("poke ", u64::from(at))?;
            }
            Call::ReplyArea(size) => {
                player.say_bytes("reply-area", self.buffers.reply(size as usize))?
            }
            Call::Skip | Call::Engine { .. } | Call::End => {}
        }
        Ok(())
    }
}
