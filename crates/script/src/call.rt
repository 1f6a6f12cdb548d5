// What a line of a script asks for.

// The engines that a session may drive.
#[derive(Clone, Copy, PartialEq, Eq, Debug)]
pub enum EngineKind {
    Track,
    File,
}

// The sizes of the reply area, of the list of marks and of the memory.
#[derive(Clone, Copy, PartialEq, Eq, Debug)]
pub struct Areas {
    pub reply: u32,
    pub marks: u32,
    pub memory: u32,
}

// A call, with the bytes B that it carries.
#[derive(Clone, Copy, PartialEq, Eq, Debug, Drop)]
pub enum Call<B> {
    // An empty line, or a remark.
    Skip,
    // A new session over an engine of so much room: sheet records of a track, bytes of a file.
    Engine { kind: EngineKind, room: u32 },
    Areas(Areas),
    // Bytes from the host.
    Take(B),
    // So many turns of the engine.
    Turn(u32),
    Jam,
    Counters,
    Owed,
    Marks,
    // So many bytes of the memory, from an address on.
    Memory { at: u32, size: u32 },
    // Bytes to write into the memory from an address on.
    Poke { at: u32, bytes: B },
    // So many bytes of the reply area.
    ReplyArea(u32),
    End,
}
