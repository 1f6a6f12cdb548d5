// Bytes as hexadecimal digits in upper case.
#![tactic(auto)]

ghost use Rattle.std.specs.Prelude.{◌≡◌, IfOk, string_bytes};
ghost use Rattle.hexadecimal.specs.Hex.{hex_text, page_text, spaced_hex};

use std::alloc::{AllocError, Global};

// Two digits for each byte.
pub fn text(heap: Global, bytes: &[u8]) -> Result<String, AllocError>
    ensures { IfOk result (λ s. string_bytes s ≡ hex_text bytes.now) }
{
    hex::encode_upper(heap, bytes)
}

// The same after a space; nothing where there are no bytes, so that no line ends in a space.
pub fn spaced(heap: Global, bytes: &[u8]) -> Result<String, AllocError>
    ensures { IfOk result (λ s. string_bytes s ≡ spaced_hex bytes.now) }
{
    if bytes.is_empty() {
        return Ok(String::new(heap));
    }
    let digits = text(heap, bytes)?;
    format!(in heap; " {digits}")
}

// A page's ID.
pub fn page(heap: Global, id: u32) -> Result<String, AllocError>
    ensures { IfOk result (λ s. string_bytes s ≡ page_text id) }
{
    text(heap, &id.to_be_bytes())
}
