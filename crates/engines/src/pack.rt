// Sheets as records of eight bytes.
ghost use Rattle.std.specs.Prelude.{◌≡◌};
ghost use Rattle.engines.specs.Records.{bytes_of, sheet_of};

use engine::Sheet;

// The record of a sheet, from which the sheet can be told again. A function and no From: neither type is of this crate.
pub fn record(sheet: Sheet) -> [u8; 8]
    ensures bytes { result ≡ bytes_of sheet }
    ensures back { sheet_of result ≡ sheet }
{
    let [a, b, c, d] = sheet.page.to_be_bytes();
    [a, b, c, d, 0, sheet.copy, u8::from(sheet.last), 0]
}
