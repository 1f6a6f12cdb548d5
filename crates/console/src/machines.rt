// The engines that a script may ask for.
use crate::player::Player;
use engine::{Engine, Sheet};
use engines::{FileEngine, TrackEngine};
use std::alloc::{AllocError, Global};
use std::io;
use std::io::Read;

// The program that prints a register has a trait of its own: what each tells differs, and the making of the two engines
// alone is alike.
pub trait Machine: Engine + Drop + Sized {
    // The words that announce it, before its room.
    const NAME: &'static str;

    fn with_room(heap: Global, room: usize) -> Result<Self, AllocError>;

    // Tells what it stacked.
    fn tell<R: Read>(self, player: &mut Player<R>) -> io::Result<()>;
}

impl Machine for TrackEngine {
    const NAME: &'static str = "engine track ";

    fn with_room(heap: Global, room: usize) -> Result<TrackEngine, AllocError> {
        Ok(TrackEngine::new(vec![in heap; Sheet::default(); room]?))
    }

    // A sheet a line.
    fn tell<R: Read>(self, player: &mut Player<R>) -> io::Result<()> {
        let (list, stacked) = self.into_list();
        // A cast here and below, since the library has no From between `usize` and `u64`.
        player.say_number("bin ", stacked as u64)?;
        for sheet in list.iter().take(stacked) {
            let line = lines::sheet_line(player.heap, "sheet ", *sheet, "")?;
            player.say(&line)?;
        }
        Ok(())
    }
}

impl Machine for FileEngine {
    const NAME: &'static str = "engine file ";

    fn with_room(heap: Global, room: usize) -> Result<FileEngine, AllocError> {
        Ok(FileEngine::new(vec![in heap; 0u8; room]?))
    }

    // As bytes, eight a sheet.
    fn tell<R: Read>(self, player: &mut Player<R>) -> io::Result<()> {
        let (bytes, used) = self.into_bytes();
        player.say_number("bin ", (used / 8) as u64)?;
        let used = used.min(bytes.len());
        player.say_bytes("bin-bytes", &bytes[..used])
    }
}
