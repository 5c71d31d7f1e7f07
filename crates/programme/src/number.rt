// Decimal numbers.
ghost use Rattle.std.specs.Prelude.{◌≡◌, ◌-◌, true, ◌++◌, ◌==◌, slice_index_or};
ghost use Rattle.programme.specs.Numerals.{all_digits, numeral};

use crate::digits::{all_digits, up_to_100};
use crate::fault::Fault;
use crate::rows::split_while;

// A decimal number: the digits before and behind its mark.
#[derive(Clone, Copy)]
pub(crate) struct Number<'a> {
    whole: &'a [u8],
    fraction: &'a [u8],
    ghost digits: { all_digits fraction.now ≡ true },
}

// The first digit behind the mark: what is behind it is cut.
fn tenth(fraction: &[u8]) -> u16
    ensures { result ≡ slice_index_or fraction.now 0 48 - 48 }
{
    match fraction {
        [first, ..] => u16::from(first.saturating_sub(b'0')),
        [] => 0,
    }
}

impl<'a> Number<'a> {
    ghost use Rattle.std.specs.Option.{option_map};
    ghost use Rattle.programme.specs.Depth.{number_of, parts_of, tenths_of, shallow};

    pub(crate) fn read(s: &'a [u8]) -> Option<Number<'a>>
        ensures { option_map parts_of result ≡ number_of s.now }
    {
        let (whole, behind) = split_while(s, |b| b.is_ascii_digit());
        if whole.is_empty() {
            return None;
        }
        match behind {
            [] => Some(Number {
                whole,
                fraction: behind,
            }),
            [b'.' | b',', fraction @ ..] if all_digits(fraction) => {
                Some(Number { whole, fraction })
            }
            _ => None,
        }
    }

    #[tactic(auto, using(crate::proofs::Values::part_le, crate::proofs::Values::zero_numeral))]
    pub(crate) fn is_zero(self) -> bool
        ensures { result ≡ (numeral (self.entry.whole.now ++ self.entry.fraction.now) == 0) }
    {
        up_to_100(self.whole) == 0 && up_to_100(self.fraction) == 0
    }

    // In tenths of a metre.
    #[tactic(auto, using(crate::proofs::Values::tenths_are, crate::proofs::Values::tenth_lt))]
    pub(crate) fn tenths(self) -> Result<u16, Fault>
        ensures { result ≡ shallow (tenths_of self.entry.whole.now self.entry.fraction.now) }
    {
        let metres = up_to_100(self.whole);
        if metres == 100 {
            return Err(Fault::TooDeep);
        }
        Ok(metres * 10 + tenth(self.fraction))
    }
}
