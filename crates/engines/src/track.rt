// The engine with a track of eight places, which stacks sheets in the caller's list.
ghost use Rattle.std.specs.Prelude.{◌≤◌, vec_len};

use crate::bin::Bin;
use crate::path::PathEngine;
use engine::{Engine, Sheet};

#[derive(Drop)]
pub struct SheetList {
    // The caller's list, which has all its places from the start, so that no sheet allocates: its first `stacked` sheets
    // are the stacked ones.
    list: Vec<Sheet>,
    stacked: usize,
    ghost within: { stacked ≤ vec_len list },
}

impl Bin for SheetList {
    ghost use Rattle.engines.specs.Tracks.{sheets_of, room_of, Written};

    ghost sheets = { sheets_of };

    ghost room = { room_of };

    ghost stack_gives = { Written };

    fn stack(&mut self, sheet: Sheet) -> bool {
        let Some(place) = self.list.get_mut(self.stacked) else {
            return false;
        };
        *place = sheet;
        self.stacked += 1;
        true
    }

    fn room(&self) -> usize {
        self.list.len() - self.stacked
    }
}

pub type TrackEngine = PathEngine<SheetList, 8>;

impl TrackEngine {
    ghost use Rattle.std.specs.Prelude.{◌≡◌, [], take, vec_len};
    ghost use Rattle.engine.specs.Engines.{paper};
    ghost use Rattle.engines.specs.Paths.{paper_of};

    // An engine with an empty path and an empty bin, which stacks from the list's start.
    pub fn new(list: Vec<Sheet>) -> TrackEngine
        ensures list { result.bin.list ≡ list }
        ensures stacked { result.bin.stacked ≡ 0 }
        ensures path { result.path ≡ [] }
        ensures paper { paper_of result ≡ paper [] [] (vec_len list) }
        ensures places { ⟦<TrackEngine as Engine>⟧.K ≡ 8 }
    {
        PathEngine::over(SheetList { list, stacked: 0 })
    }

    // The list as it was handed in, with all its places, and how many of them have sheets.
    pub fn into_list(self) -> (Vec<Sheet>, usize)
        ensures list { result.0 ≡ self.bin.list }
        ensures stacked { result.1 ≡ self.bin.stacked }
        ensures bin { take result.1 result.0.items ≡ (paper_of self).bin }
    {
        let PathEngine {
            bin: SheetList { list, stacked },
            path: _,
        } = self;
        (list, stacked)
    }
}
