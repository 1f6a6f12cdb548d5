// The call that a line writes.
ghost use Rattle.std.specs.Prelude.{◌≡◌, IfOk};
ghost use Rattle.script.specs.Calls.{seen, bare_of, engine_of, areas_of, memory_of, numbered, poke_of, followed, said_of};

use crate::call::{Areas, Call, EngineKind};
use std::alloc::AllocError;
use words::{first_word, hex, number, number_up_to, same, says_nothing};

// The room of an engine: sheet records of a track, bytes of a file.
const TRACK: u32 = 10_000_000;

const FILE: u32 = 100_000_000;

// The sizes of the areas.
const REPLY: u32 = 64;

const MARKS: u32 = 1000;

const MEMORY: u32 = 65536;

// The call of a line of one word.
fn bare<'b>(word: &[u8]) -> Option<Call<&'b [u8]>>
    ensures { seen result ≡ bare_of word.now }
{
    // A match on the word branches at each of its letters: tried, and the proof of its last arm did not close.
    if same(word, b"take") {
        Some(Call::Take(&[]))
    } else if same(word, b"turn") {
        Some(Call::Turn(1))
    } else if same(word, b"jam") {
        Some(Call::Jam)
    } else if same(word, b"counters") {
        Some(Call::Counters)
    } else if same(word, b"owed") {
        Some(Call::Owed)
    } else if same(word, b"marks") {
        Some(Call::Marks)
    } else if same(word, b"end") {
        Some(Call::End)
    } else {
        None
    }
}

fn engine<'b>(rest: &[u8]) -> Option<Call<&'b [u8]>>
    ensures { seen result ≡ engine_of rest.now }
{
    let (kind, room) = first_word(rest);
    let room = room?;
    match kind {
        b"track" => Some(Call::Engine {
            kind: EngineKind::Track,
            room: number_up_to(room, TRACK)?,
        }),
        b"file" => Some(Call::Engine {
            kind: EngineKind::File,
            room: number_up_to(room, FILE)?,
        }),
        _ => None,
    }
}

fn areas<'b>(rest: &[u8]) -> Option<Call<&'b [u8]>>
    ensures { seen result ≡ areas_of rest.now }
{
    let (reply, rest) = first_word(rest);
    let (marks, memory) = first_word(rest?);
    let memory = memory?;
    Some(Call::Areas(Areas {
        reply: number_up_to(reply, REPLY)?,
        marks: number_up_to(marks, MARKS)?,
        memory: number_up_to(memory, MEMORY)?,
    }))
}

fn memory<'b>(rest: &[u8]) -> Option<Call<&'b [u8]>>
    ensures { seen result ≡ memory_of rest.now }
{
    let (at, n) = first_word(rest);
    let n = n?;
    let at = number_up_to(at, MEMORY)?;
    let size = number_up_to(n, MEMORY - at)?;
    Some(Call::Memory { at, size })
}

// The call of a first word that numbers follow.
fn with_numbers<'b>(word: &[u8], rest: &[u8]) -> Option<Call<&'b [u8]>>
    ensures { seen result ≡ numbered word.now rest.now }
{
    // No match on the word, as above.
    if same(word, b"turn") {
        Some(Call::Turn(number(rest)?))
    } else if same(word, b"memory") {
        memory(rest)
    } else if same(word, b"reply-area") {
        Some(Call::ReplyArea(number_up_to(rest, REPLY)?))
    } else if same(word, b"areas") {
        areas(rest)
    } else if same(word, b"engine") {
        engine(rest)
    } else {
        None
    }
}

fn poke<'b>(rest: &[u8], out: &'b mut Vec<u8>) -> Result<Option<Call<&'b [u8]>>, AllocError>
    ensures { IfOk result (λ call. seen call ≡ poke_of rest.now) }
{
    // No `?`: a malformed line is an answer here and no error.
    let (at, Some(word)) = first_word(rest) else {
        return Ok(None);
    };
    let Some(at) = number_up_to(at, MEMORY) else {
        return Ok(None);
    };
    // A cast, since the library has no From between `u32` and `usize`.
    match hex(word, out)? {
        Some(bytes) if bytes.len() <= (MEMORY - at) as usize => Ok(Some(Call::Poke { at, bytes })),
        _ => Ok(None),
    }
}

// The call of a first word that more follows.
fn with_words<'b>(
    word: &[u8],
    rest: &[u8],
    out: &'b mut Vec<u8>,
) -> Result<Option<Call<&'b [u8]>>, AllocError>
    ensures { IfOk result (λ call. seen call ≡ followed word.now rest.now) }
{
    // No match on the word, as above.
    if same(word, b"take") {
        Ok(hex(rest, out)?.map(|bytes| Call::Take(bytes)))
    } else if same(word, b"poke") {
        poke(rest, out)
    } else {
        Ok(with_numbers(word, rest))
    }
}

// The call of a line, which has lost its newline: None where it is malformed. The bytes that it carries are read into the
// list that is lent.
pub fn parse<'b>(line: &[u8], out: &'b mut Vec<u8>) -> Result<Option<Call<&'b [u8]>>, AllocError>
    ensures { IfOk result (λ call. seen call ≡ said_of line.now) }
{
    if says_nothing(line) {
        return Ok(Some(Call::Skip));
    }
    match first_word(line) {
        (word, None) => Ok(bare(word)),
        (word, Some(rest)) => with_words(word, rest, out),
    }
}
