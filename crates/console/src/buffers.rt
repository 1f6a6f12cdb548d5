// The areas that takes are given: the fronts of three buffers.
use engine::Engine;
use interpreter::Taken;
use printer::Printer;
use script::Areas;
use std::alloc::{AllocError, Global};
use text::Mark;

// A buffer, of which a front is handed out. It is kept whole, since what lies behind a front that shrinks is still told.
#[derive(Drop)]
struct Area<T> {
    items: Vec<T>,
    size: usize,
}

impl<T: Copy> Area<T> {
    // Handed out whole.
    fn new(heap: Global, blank: T, size: usize) -> Result<Area<T>, AllocError> {
        Ok(Area {
            items: vec![in heap; blank; size]?,
            size,
        })
    }

    fn front(&mut self) -> &mut [T] {
        let size = self.size.min(self.items.len());
        &mut self.items[..size]
    }

    // The first so many items, as far as there are so many.
    fn first(&self, n: usize) -> &[T] {
        &self.items[..n.min(self.items.len())]
    }
}

#[derive(Drop)]
pub struct Buffers {
    reply: Area<u8>,
    marks: Area<Mark>,
    memory: Area<u8>,
    // How many marks the latest take told.
    placed: usize,
}

impl Buffers {
    // All zero, and handed out whole.
    pub(crate) fn new(heap: Global) -> Result<Buffers, AllocError> {
        Ok(Buffers {
            reply: Area::new(heap, 0, 64)?,
            marks: Area::new(heap, Mark::default(), 1000)?,
            memory: Area::new(heap, 0, 65536)?,
            placed: 0,
        })
    }

    // Casts here and below, since the library has no From between `u32` and `usize`.
    pub(crate) fn resize(&mut self, areas: Areas) {
        self.reply.size = areas.reply as usize;
        self.marks.size = areas.marks as usize;
        self.memory.size = areas.memory as usize;
    }

    pub(crate) fn take<E: Engine>(&mut self, printer: &mut Printer<E>, bytes: &[u8]) -> Taken {
        let taken = printer.take(
            bytes,
            self.reply.front(),
            self.marks.front(),
            self.memory.front(),
        );
        self.placed = taken.marks;
        taken
    }

    // The marks of the open or latest page.
    pub(crate) fn placed(&self) -> &[Mark] {
        self.marks.first(self.placed)
    }

    pub(crate) fn reply(&self, size: usize) -> &[u8] {
        self.reply.first(size)
    }

    pub(crate) fn memory(&self, at: u32, size: u32) -> &[u8] {
        let memory = &self.memory.items;
        let start = (at as usize).min(memory.len());
        let end = start.saturating_add(size as usize).min(memory.len());
        &memory[start..end]
    }

    pub(crate) fn poke(&mut self, at: u32, bytes: &[u8]) {
        let cells = self.memory.items.iter_mut().skip(at as usize);
        for (cell, b) in cells.zip(bytes) {
            *cell = *b;
        }
    }
}
