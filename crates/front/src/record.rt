ghost use Rattle.std.specs.Prelude.{◌≡◌};
ghost use Rattle.std.specs.Char.{is_ascii_digit};
ghost use Rattle.std.specs.Bool.{then_some};
ghost use Rattle.front.specs.Reading.{value, figures, reading_of};

// What the front shows: a depth in tenths of a metre, or dashes.
pub type Record = Option<u16>;

// What a digit stands for.
fn digit(b: u8) -> Option<u16>
    ensures { result ≡ then_some (is_ascii_digit b) (value b) }
{
    b.is_ascii_digit().then(|| u16::from(b - b'0'))
}

// The number that the figures `dd.d` give.
fn figures(tens: u8, units: u8, tenth: u8) -> Record
    ensures { result ≡ figures tens units 0x2E tenth }
{
    Some(digit(tens)? * 100 + digit(units)? * 10 + digit(tenth)?)
}

// What the front reads in a text.
pub fn reading_of(text: &[u8]) -> Record
    ensures { result ≡ reading_of text.now }
{
    match text {
        [units, b'.', tenth] => figures(b'0', *units, *tenth),
        [tens, units, b'.', tenth] => figures(*tens, *units, *tenth),
        _ => None,
    }
}
