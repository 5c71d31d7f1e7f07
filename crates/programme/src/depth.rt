// The depth that a gauge's reading gives.
ghost use Rattle.std.specs.Prelude.{◌≡◌};
ghost use Rattle.programme.specs.Depth.{number_of, judged, depth_of};

use crate::fault::Fault;
use crate::number::Number;

// The depth of a number behind its sign.
fn judge(below: bool, s: &[u8]) -> Result<u16, Fault>
    ensures { result ≡ judged below (number_of s.now) }
{
    let number = Number::read(s).ok_or(Fault::NoDepth)?;
    if below && !number.is_zero() {
        return Err(Fault::BelowZero);
    }
    number.tenths()
}

// What METRES says, in tenths of a metre: cut and never rounded up, so that no display shows more water than was measured.
pub(crate) fn read_depth(metres: &[u8]) -> Result<u16, Fault>
    ensures { result ≡ depth_of metres.now }
{
    match metres {
        [b'-', number @ ..] => judge(true, number),
        [b'+', number @ ..] => judge(false, number),
        _ => judge(false, metres),
    }
}
