// Numbers and bytes that words write.
ghost use Rattle.std.specs.Prelude.{◌≡◌, IfOk};
ghost use Rattle.std.specs.Option.{option_map};
ghost use Rattle.words.specs.Numerals.{number_of, up_to, byte_of, bytes_of};

use std::alloc::AllocError;

// The number of one to nine digits that a word writes.
pub fn number(word: &[u8]) -> Option<u32>
    ensures { result ≡ number_of word.now }
{
    if word.is_empty() || word.len() > 9 {
        return None;
    }
    let mut n = 0;
    for b in word {
        n = n * 10 + char::from(*b).to_digit(10)?;
    }
    Some(n)
}

// The number that a word writes, where it is at most the limit.
pub fn number_up_to(word: &[u8], limit: u32) -> Option<u32>
    ensures { result ≡ up_to limit word.now }
{
    number(word).filter(|n| *n <= limit)
}

// The byte that two hexadecimal digits write.
fn byte(first: u8, second: u8) -> Option<u8>
    ensures { result ≡ byte_of first second }
{
    let high = char::from(first).to_digit(16)?;
    let low = char::from(second).to_digit(16)?;
    // A cast, since two digits write less than 256.
    Some((high * 16 + low) as u8)
}

// The bytes that a word of hexadecimal digits writes; None where it writes none. They replace what the lent list held.
// Pair by pair, so that no memory is asked for what stands behind a bad pair.
pub fn hex<'b>(word: &[u8], out: &'b mut Vec<u8>) -> Result<Option<&'b [u8]>, AllocError>
    ensures { IfOk result (λ bytes. option_map (λ b. b.now) bytes ≡ bytes_of word.now) }
{
    out.clear();
    if word.is_empty() {
        return Ok(None);
    }
    let mut rest = word;
    while let [first, second, tail @ ..] = rest {
        let Some(b) = byte(*first, *second) else {
            return Ok(None);
        };
        out.push(b)?;
        rest = tail;
    }
    if rest.is_empty() {
        Ok(Some(out.as_slice()))
    } else {
        Ok(None)
    }
}
