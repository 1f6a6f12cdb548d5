// The stacked sheets, held against the register.
use crate::console::hex;
use engine::{Engine, Sheet};
use engines::{FileEngine, TrackEngine, record};
use host::Page;
use std::alloc::{AllocError, Global};
use std::io;

// The sheets that a register makes, in order.
pub(crate) fn wanted(heap: Global, register: &[Page]) -> Result<Vec<Sheet>, AllocError> {
    let mut sheets = Vec::new(heap);
    for page in register {
        for copy in 1..=page.copies {
            sheets.push(Sheet {
                page: page.id,
                copy,
                last: copy == page.copies,
            })?;
        }
    }
    Ok(sheets)
}

// An engine that the register is printed on. The program that plays a script has a trait of its own: what each tells
// differs, and the making of the two engines alone is alike.
pub trait Machine: Engine + Drop + Sized {
    const TITLE: &'static str;

    // With an empty path and an empty bin.
    fn empty(heap: Global) -> Result<Self, AllocError>;

    // Prints what is stacked and tells whether it is the wanted sheets, in order.
    fn print(self, rt: &HostRuntime, wanted: &[Sheet]) -> io::Result<bool>;
}

impl Machine for TrackEngine {
    const TITLE: &'static str = "Track engine: eight sheets in the path";

    fn empty(heap: Global) -> Result<TrackEngine, AllocError> {
        Ok(TrackEngine::new(vec![in heap; Sheet::default(); 32]?))
    }

    fn print(self, rt: &HostRuntime, wanted: &[Sheet]) -> io::Result<bool> {
        let (mut list, stacked) = self.into_list();
        println!(rt; "In the bin: {stacked} sheets")?;
        list.truncate(stacked);
        for sheet in &list {
            let (page, copy) = (sheet.page, sheet.copy);
            let last = if sheet.last { ", the last" } else { "" };
            println!(rt; "  page {page:08X} copy {copy}{last}")?;
        }
        Ok(list.as_slice() == wanted)
    }
}

impl Machine for FileEngine {
    const TITLE: &'static str = "File engine: one sheet in the path, eight bytes a sheet";

    fn empty(heap: Global) -> Result<FileEngine, AllocError> {
        Ok(FileEngine::new(vec![in heap; 0u8; 256]?))
    }

    // A record a line.
    fn print(self, rt: &HostRuntime, wanted: &[Sheet]) -> io::Result<bool> {
        let (mut bytes, used) = self.into_bytes();
        println!(rt; "In the bin: {used} bytes")?;
        bytes.truncate(used);
        for part in bytes.chunks(8) {
            let text = hex(rt.alloc(), part)?;
            println!(rt; "  {text}")?;
        }
        let mut records = Vec::new(rt.alloc());
        for sheet in wanted {
            records.extend_from_slice(&record(*sheet))?;
        }
        Ok(bytes.as_slice() == records.as_slice())
    }
}

pub(crate) fn print_end(rt: &HostRuntime, complete: bool) -> io::Result<()> {
    if complete {
        println!(rt; "The job is complete: every page with all its copies, each once, in order.")
    } else {
        println!(rt; "The job is NOT complete.")
    }
}
