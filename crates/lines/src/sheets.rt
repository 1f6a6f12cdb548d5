// Sheets.
ghost use Rattle.std.specs.Prelude.{◌≡◌, IfOk, string_bytes};
ghost use Rattle.lines.specs.Answers.{sheet_line};

use engine::Sheet;
use std::alloc::{AllocError, Global};

// A sheet of the bin, or one that a turn stacked, between the words of the line.
pub fn sheet_line(heap: Global, name: &str, sheet: Sheet, end: &str) -> Result<String, AllocError>
    ensures { IfOk result (λ s. string_bytes s ≡ sheet_line name.now sheet end.now) }
{
    let Sheet { page, copy, last } = sheet;
    let page = hexadecimal::page(heap, page)?;
    let last = u8::from(last);
    format!(in heap; "{name}page={page} copy={copy} last={last}{end}\n")
}
