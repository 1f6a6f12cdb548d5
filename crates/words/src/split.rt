// The words of a line.
ghost use Rattle.std.specs.Prelude.{◌≡◌, Some, None, ◌==◌};
ghost use Rattle.std.specs.Str.{bytes_eq};
ghost use Rattle.words.specs.Words.{word_of, rest_of, skipped};

// The letters before the first space, and what stands after that space.
pub fn first_word(line: &[u8]) -> (&[u8], Option<&[u8]>)
    ensures word { result.0.now ≡ word_of line.now }
    ensures rest { elim result.1 [ Some rest ↦ rest_of line.now ≡ Some rest.now | None ↦ rest_of line.now ≡ None ] }
{
    match line.iter().position(|b| *b == b' ') {
        Some(i) => (&line[..i], Some(&line[i + 1..])),
        None => (line, None),
    }
}

// Whether a line is empty or a remark.
pub fn says_nothing(line: &[u8]) -> bool
    ensures { result ≡ skipped line.now }
{
    matches!(line, [] | [b'#', ..])
}

// Whether a word is the given one. Its clause says so of the bytes, which `==` alone leaves to the caller.
pub fn same(word: &[u8], name: &[u8]) -> bool
    ensures { result ≡ bytes_eq word.now name.now }
{
    word == name
}
