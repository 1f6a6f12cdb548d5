// Reads the script line by line and writes the answers.
use crate::calls::Session;
use engine::Engine;
use script::{Call, EngineKind, parse};
use std::alloc::Global;
use std::io;
use std::io::{BufRead, BufReader, Read, Stdout, Write};

#[derive(Drop)]
pub struct Player<R: Read> {
    input: BufReader<R>,
    line: Vec<u8>,
    // The number of the line, from 1.
    number: u64,
    stdout: Stdout,
    // Answers that are not written yet. No buffered writer: it would write a part of an answer when it is full, and what
    // waits when the program ends by an error.
    out: Vec<u8>,
    pub heap: Global,
}

// How a session ended: the script asks for an engine of so much room, it ended the printer end, or it is over.
#[derive(Clone, Copy, Debug, PartialEq, Eq)]
pub enum Next {
    Engine(EngineKind, u32),
    Nothing,
    End,
}

impl<R: Read + Drop> Player<R> {
    pub(crate) fn new(rt: &HostRuntime, input: R) -> io::Result<Player<R>> {
        Ok(Player {
            input: BufReader::new(rt.alloc(), input)?,
            line: Vec::new(rt.alloc()),
            number: 0,
            stdout: rt.stdout(),
            out: Vec::new(rt.alloc()),
            heap: rt.alloc(),
        })
    }
}

impl<R: Read> Player<R> {
    pub(crate) fn flush(&mut self) -> io::Result<()> {
        self.stdout.write_all(&self.out)?;
        self.out.clear();
        Ok(())
    }

    // Writes the answers where many wait.
    pub(crate) fn flush_much(&mut self) -> io::Result<()> {
        if self.out.len() > 65536 {
            self.flush()?;
        }
        Ok(())
    }

    // The next call, whose bytes are read into the lent list; None behind the last. A malformed line is told here, and is
    // then one to skip.
    fn next_call<'b>(&mut self, bytes: &'b mut Vec<u8>) -> io::Result<Option<Call<&'b [u8]>>> {
        // The library's lines would be read with no look at what waits, so that no answer could be written first.
        if self.input.buffer().is_empty() {
            self.flush()?;
        }
        self.flush_much()?;
        self.line.clear();
        if self.input.read_until(b'\n', &mut self.line)? == 0 {
            return Ok(None);
        }
        self.number = self.number.wrapping_add(1);
        let line = self.line.as_slice();
        match parse(line.strip_suffix(b"\n").unwrap_or(line), bytes)? {
            Some(call) => Ok(Some(call)),
            None => {
                self.wrong()?;
                Ok(Some(Call::Skip))
            }
        }
    }

    // Adds a line to the answers.
    pub(crate) fn say(&mut self, line: &str) -> io::Result<()> {
        self.out.extend_from_slice(line.as_bytes())?;
        Ok(())
    }

    pub(crate) fn say_number(&mut self, name: &str, n: u64) -> io::Result<()> {
        let line = lines::number_line(self.heap, name, n)?;
        self.say(&line)
    }

    pub(crate) fn say_bytes(&mut self, name: &str, bytes: &[u8]) -> io::Result<()> {
        let line = lines::hex_line(self.heap, name, bytes)?;
        self.say(&line)
    }

    pub(crate) fn wrong(&mut self) -> io::Result<()> {
        self.say_number("error line ", self.number)
    }
}

// Plays calls to one printer end until the script ends it, and hands its engine back.
pub(crate) fn session<E: Engine + Drop, R: Read>(
    player: &mut Player<R>,
    bytes: &mut Vec<u8>,
    engine: E,
) -> io::Result<(E, Next)> {
    let mut session = Session::new(player.heap, engine)?;
    let mut next = Next::End;
    // A script has no known end, so that a loop while there is a call has no measure.
    for _ in 0..u64::MAX {
        match player.next_call(bytes)? {
            None => break,
            Some(Call::Engine { kind, room }) => {
                next = Next::Engine(kind, room);
                break;
            }
            Some(Call::End) => {
                next = Next::Nothing;
                break;
            }
            Some(call) => session.perform(player, call)?,
        }
    }
    Ok((session.into_engine(), next))
}

// With no printer end only an engine line can be played.
pub(crate) fn skip_to_engine<R: Read>(
    player: &mut Player<R>,
    bytes: &mut Vec<u8>,
) -> io::Result<Next> {
    // No known end, as above.
    for _ in 0..u64::MAX {
        match player.next_call(bytes)? {
            None => break,
            Some(Call::Engine { kind, room }) => return Ok(Next::Engine(kind, room)),
            Some(Call::Skip) => {}
            Some(_) => player.wrong()?,
        }
    }
    Ok(Next::End)
}
