// The lines that are printed.
use std::alloc::{AllocError, Global};
use std::fmt::Write;
use std::io;

pub(crate) fn heading(rt: &HostRuntime, text: &str) -> io::Result<()> {
    println!(rt; "== {text} ==")
}

// Bytes in hexadecimal, two digits each.
pub(crate) fn hex(heap: Global, bytes: &[u8]) -> Result<String, AllocError> {
    let mut text = String::new(heap);
    for b in bytes {
        // No `?`: where memory runs out a byte is missing from what is printed, and that is not to end the program.
        let _ = write!(text, "{b:02X} ");
    }
    Ok(text)
}

// Who, the bytes, and what they mean.
pub(crate) fn line(rt: &HostRuntime, who: &str, bytes: &[u8], meaning: &str) -> io::Result<()> {
    let text = hex(rt.alloc(), bytes)?;
    println!(rt; "{who:7} {text}| {meaning}")
}

// Who, and what happened.
pub(crate) fn note(rt: &HostRuntime, who: &str, what: &str) -> io::Result<()> {
    println!(rt; "{who:7} {what}")
}
