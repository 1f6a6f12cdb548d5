// A name with what follows it.
ghost use Rattle.std.specs.Prelude.{◌≡◌, IfOk, string_bytes};
ghost use Rattle.lines.specs.Answers.{number_line, hex_line, memory_line};

use std::alloc::{AllocError, Global};

pub fn number_line(heap: Global, name: &str, n: u64) -> Result<String, AllocError>
    ensures { IfOk result (λ s. string_bytes s ≡ number_line name.now n) }
{
    format!(in heap; "{name}{n}\n")
}

pub fn hex_line(heap: Global, name: &str, bytes: &[u8]) -> Result<String, AllocError>
    ensures { IfOk result (λ s. string_bytes s ≡ hex_line name.now bytes.now) }
{
    let digits = hexadecimal::spaced(heap, bytes)?;
    format!(in heap; "{name}{digits}\n")
}

// The bytes of the memory from an address on.
pub fn memory_line(heap: Global, at: u32, bytes: &[u8]) -> Result<String, AllocError>
    ensures { IfOk result (λ s. string_bytes s ≡ memory_line at bytes.now) }
{
    let n = bytes.len();
    let name = format!(in heap; "memory {at} {n}")?;
    hex_line(heap, &name, bytes)
}
