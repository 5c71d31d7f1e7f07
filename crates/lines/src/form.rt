ghost use Rattle.std.specs.Prelude.{◌≡◌, ◌<◌, true, [], ◌∷◌, Some};
ghost use Rattle.std.specs.Fmt.{digit_glyph};
ghost use Rattle.lines.specs.Form.{gap, line_text};

use std::fmt;

// How a carrier's frames are written to a line.
#[derive(Clone, Copy, Debug, PartialEq, Eq)]
pub enum Form {
    // Blocks of two bytes, parted by spaces.
    Blocks,
    // The bytes in a row.
    Row,
}

impl Form {
    // What stands before the byte at this place.
    fn gap(self, at: usize) -> &'static str
        ensures { result.now ≡ gap self at }
    {
        match self {
            Form::Blocks if at > 0 && at % 2 == 0 => " ",
            _ => "",
        }
    }
}

// Digits as texts: to format each byte as a number costs two to three times as much.
const DIGITS: [&str; 16] = [
    "0", "1", "2", "3", "4", "5", "6", "7", "8", "9", "A", "B", "C", "D", "E", "F",
];

// The digit of half a byte.
fn digit(half: u8) -> &'static str
    requires { half < 16 }
    ensures { result.now ≡ digit_glyph true half ∷ [] }
{
    DIGITS[usize::from(half)]
}

// A frame that prints as a line of hexadecimal digits.
#[derive(Clone, Copy, Debug)]
pub struct Line<'a> {
    pub form: Form,
    pub frame: &'a [u8],
}

impl fmt::Display for Line<'_> {
    ghost output = { λ line. Some (line_text line.form line.frame.now) };

    fn fmt<W: fmt::Write>(&self, f: &mut fmt::Formatter<W>) -> fmt::Result {
        for (at, &byte) in self.frame.iter().enumerate() {
            f.write_str(self.form.gap(at))?;
            f.write_str(digit(byte / 16))?;
            f.write_str(digit(byte % 16))?;
        }
        Ok(())
    }
}
