// Rows of decimal digits.
ghost use Rattle.std.specs.Prelude.{◌≡◌, min};
ghost use Rattle.programme.specs.Numerals.{all_digits, numeral};

pub(crate) fn all_digits(s: &[u8]) -> bool
    ensures { result ≡ all_digits s.now }
{
    s.iter().all(u8::is_ascii_digit)
}

// What a row of digits writes, or 100 where that is more.
pub(crate) fn up_to_100(s: &[u8]) -> u16
    ensures { result ≡ min 100 (numeral s.now) }
{
    s.iter().fold(0u16, |n, b| {
        let digit = u16::from(b.saturating_sub(b'0'));
        n.saturating_mul(10).saturating_add(digit).min(100)
    })
}
