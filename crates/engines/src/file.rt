// The engine with one place, which stacks sheets as records in the caller's bytes.
ghost use Rattle.std.specs.Prelude.{◌≡◌, ◌*◌, ◌/◌, ◌≤◌, take, vec_len};
ghost use Rattle.std.specs.List.{flat_map};
ghost use Rattle.engines.specs.Records.{bytes_of, sheets_in};

use crate::bin::Bin;
use crate::pack::record;
use crate::path::PathEngine;
use engine::{Engine, Sheet};

#[derive(Drop)]
pub struct Records {
    // The caller's bytes, all there from the start, so that no sheet allocates: their first `stacked` records are the
    // stacked sheets. Bytes short of a record at the end stay unused.
    bytes: Vec<u8>,
    stacked: usize,
    ghost within: { stacked ≤ vec_len bytes / 8 },
    // The used bytes are the records of the sheets that they tell, so none of them tells a sheet in another way.
    ghost told: { take (8 * stacked) bytes.items ≡ flat_map bytes_of (sheets_in stacked bytes.items) },
}

impl Bin for Records {
    ghost use Rattle.engines.specs.Files.{sheets_of, room_of, Filed};

    ghost sheets = { sheets_of };

    ghost room = { room_of };

    ghost stack_gives = { Filed };

    fn stack(&mut self, sheet: Sheet) -> bool {
        if self.stacked == self.bytes.len() / 8 {
            return false;
        }
        let at = 8 * self.stacked;
        self.bytes.as_mut_slice()[at..at + 8].copy_from_slice(&record(sheet));
        self.stacked += 1;
        true
    }

    fn room(&self) -> usize {
        self.bytes.len() / 8 - self.stacked
    }
}

pub type FileEngine = PathEngine<Records, 1>;

impl FileEngine {
    ghost use Rattle.std.specs.Prelude.{◌≡◌, ◌*◌, ◌/◌, [], take, vec_len};
    ghost use Rattle.std.specs.List.{flat_map};
    ghost use Rattle.engine.specs.Engines.{paper};
    ghost use Rattle.engines.specs.Paths.{paper_of};
    ghost use Rattle.engines.specs.Records.{bytes_of};

    // An engine with an empty path and an empty bin, which stacks from the start of the bytes.
    pub fn new(bytes: Vec<u8>) -> FileEngine
        ensures bytes { result.bin.bytes ≡ bytes }
        ensures stacked { result.bin.stacked ≡ 0 }
        ensures path { result.path ≡ [] }
        ensures paper { paper_of result ≡ paper [] [] (vec_len bytes / 8) }
        ensures places { ⟦<FileEngine as Engine>⟧.K ≡ 1 }
    {
        PathEngine::over(Records { bytes, stacked: 0 })
    }

    // The bytes as they were handed in, with all their places, and how many of them are used.
    pub fn into_bytes(self) -> (Vec<u8>, usize)
        ensures bytes { result.0 ≡ self.bin.bytes }
        ensures used { result.1 ≡ 8 * self.bin.stacked }
        ensures records { take result.1 result.0.items ≡ flat_map bytes_of (paper_of self).bin }
    {
        let PathEngine {
            bin: Records { bytes, stacked },
            path: _,
        } = self;
        (bytes, 8 * stacked)
    }
}
