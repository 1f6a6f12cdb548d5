// The fonts, and how far their characters advance.
ghost use Rattle.std.specs.Prelude.{◌≡◌};
ghost use Rattle.text.specs.Fonts.{number_of, font_of, font_named, advance_of};

use refusal::Refusal;

// By characters per inch.
#[derive(Clone, Copy, Debug, PartialEq, Eq)]
pub enum Font {
    Ten,
    Twelve,
    Fifteen,
}

// The font of a number.
impl TryFrom<u8> for Font {
    type Error = Refusal;

    ghost try_from_gives = { λ number r. r ≡ font_named number };

    fn try_from(number: u8) -> Result<Font, Refusal> {
        match number {
            1 => Ok(Font::Ten),
            2 => Ok(Font::Twelve),
            3 => Ok(Font::Fifteen),
            _ => Err(Refusal::BadControl),
        }
    }
}

// The number of a font.
impl From<Font> for u8 {
    ghost from_gives = { λ font number. number ≡ number_of font };

    fn from(font: Font) -> u8 {
        match font {
            Font::Ten => 1,
            Font::Twelve => 2,
            Font::Fifteen => 3,
        }
    }
}

impl Font {
    pub fn number(self) -> u8
        ensures { result ≡ number_of self }
    {
        u8::from(self)
    }

    // How far a character advances, in 1/1440 inch: the same for every code in these fonts.
    pub fn advance(self, _code: u8) -> u16
        ensures { result ≡ advance_of self _code }
    {
        match self {
            Font::Ten => 144,
            Font::Twelve => 120,
            Font::Fifteen => 96,
        }
    }
}
