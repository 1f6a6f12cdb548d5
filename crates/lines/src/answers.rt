// Lines of several numbers.
ghost use Rattle.std.specs.Prelude.{◌≡◌, IfOk, string_bytes};
ghost use Rattle.lines.specs.Answers.{take_line, counters_line, mark_line, areas_line};

use engine::Tally;
use script::Areas;
use std::alloc::{AllocError, Global};

// The number is any byte, which an outcome's is not, so that the type of what a take tells would ask more of a caller.
pub fn take_line(
    heap: Global,
    used: usize,
    number: u8,
    reply: usize,
    marks: usize,
) -> Result<String, AllocError>
    ensures { IfOk result (λ s. string_bytes s ≡ take_line used number reply marks) }
{
    format!(in heap; "take used={used} number={number} reply={reply} marks={marks}\n")
}

// The pages and the copies of a tally, as the line of the counters takes them.
pub fn counts(tally: Tally) -> (u64, u64)
    ensures { result ≡ (tally.pages.0, tally.copies.0) }
{
    (u64::from(tally.pages.0), u64::from(tally.copies.0))
}

// Pages received, and the pages and copies that are committed and stacked. The counters of a printer end are narrower
// than these numbers, so that their type would ask more of a caller.
pub fn counters_line(
    heap: Global,
    received: u64,
    committed: (u64, u64),
    stacked: (u64, u64),
) -> Result<String, AllocError>
    ensures { IfOk result (λ s. string_bytes s ≡ counters_line received committed stacked) }
{
    let (pages, copies) = committed;
    let (pages_out, copies_out) = stacked;
    format!(in heap;
        "counters received={received} committed={pages}/{copies} stacked={pages_out}/{copies_out}\n"
    )
}

// The numbers of a mark are narrower than these, so that its type would ask more of a caller.
pub fn mark_line(
    heap: Global,
    kind: u32,
    i: i64,
    b: i64,
    first: i64,
    second: i64,
) -> Result<String, AllocError>
    ensures { IfOk result (λ s. string_bytes s ≡ mark_line kind i b first second) }
{
    format!(in heap; "mark {kind} {i} {b} {first} {second}\n")
}

// The sizes of the reply area, of the list of marks and of the memory.
pub fn areas_line(heap: Global, areas: Areas) -> Result<String, AllocError>
    ensures { IfOk result (λ s. string_bytes s ≡ areas_line areas) }
{
    let Areas {
        reply,
        marks,
        memory,
    } = areas;
    format!(in heap; "areas {reply} {marks} {memory}\n")
}
