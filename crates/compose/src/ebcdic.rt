// Characters in ASCII and in EBCDIC.
ghost use Rattle.std.specs.Prelude.{◌≡◌, ◌<◌, ◌≤◌};
ghost use Rattle.compose.specs.Ebcdic.{table, place_in, code_at, ebcdic_of, ascii_of};

// The EBCDIC codes of the ASCII characters from the space to the tilde, in their order.
const CODES: [u8; 95] = [
    0x40, 0x5A, 0x7F, 0x7B, 0x5B, 0x6C, 0x50, 0x7D, 0x4D, 0x5D, 0x5C, 0x4E, 0x6B, 0x60, 0x4B, 0x61,
    0xF0, 0xF1, 0xF2, 0xF3, 0xF4, 0xF5, 0xF6, 0xF7, 0xF8, 0xF9, 0x7A, 0x5E, 0x4C, 0x7E, 0x6E, 0x6F,
    0x7C, 0xC1, 0xC2, 0xC3, 0xC4, 0xC5, 0xC6, 0xC7, 0xC8, 0xC9, 0xD1, 0xD2, 0xD3, 0xD4, 0xD5, 0xD6,
    0xD7, 0xD8, 0xD9, 0xE2, 0xE3, 0xE4, 0xE5, 0xE6, 0xE7, 0xE8, 0xE9, 0xBA, 0xE0, 0xBB, 0xB0, 0x6D,
    0x79, 0x81, 0x82, 0x83, 0x84, 0x85, 0x86, 0x87, 0x88, 0x89, 0x91, 0x92, 0x93, 0x94, 0x95, 0x96,
    0x97, 0x98, 0x99, 0xA2, 0xA3, 0xA4, 0xA5, 0xA6, 0xA7, 0xA8, 0xA9, 0xC0, 0x4F, 0xD0, 0xA1,
];

const QUESTION_MARK: u8 = 0x6F;

// The first place of a code; how many there are where it is at none. No Option: `ascii_of` asks once whether the place is
// in the table.
fn place_in_table(code: u8) -> usize
    ensures { result ≡ place_in table code }
{
    CODES.iter().position(|c| *c == code).unwrap_or(CODES.len())
}

// The code at a place; the question mark's behind the last.
fn code_in_table(place: usize) -> u8
    ensures { result ≡ code_at table place }
{
    CODES.get(place).copied().unwrap_or(QUESTION_MARK)
}

// The EBCDIC code of a character, and the question mark's of one that has none here. From the space to the tilde no
// two characters have the same code, so each can be read back.
pub fn to_ebcdic(character: u8) -> u8
    ensures value { result ≡ ebcdic_of character }
    ensures back { 32 ≤ character → character < 127 → ascii_of result ≡ character }
{
    if character < b' ' {
        return QUESTION_MARK;
    }
    code_in_table(usize::from(character - b' '))
}

// The character of an EBCDIC code, and the question mark of one that has none here.
pub fn to_ascii(code: u8) -> u8
    ensures { result ≡ ascii_of code }
{
    let place = place_in_table(code);
    // The cast loses nothing, by the test before it.
    if place < 95 { b' ' + place as u8 } else { b'?' }
}
