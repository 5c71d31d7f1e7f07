ghost use Rattle.std.specs.Prelude.{◌≡◌, ◌∷◌};
ghost use Rattle.dab.specs.Frames.{framed};

use crate::load::Load;
use crate::prefix::Prefix;
use arrayvec::ArrayVec;
use crc::check;

// A frame: prefix and data, and their check behind them.
pub(crate) fn frame(prefix: Prefix, load: &Load<'_>) -> ArrayVec<u8, 20>
    ensures { result.items ≡ framed (prefix.first ∷ prefix.second ∷ load.now.bytes.now) }
{
    let mut frame = ArrayVec::new();
    frame.push(prefix.first);
    frame.push(prefix.second);
    frame.try_extend_from_slice(load.bytes).unwrap();
    let check = check(&frame).to_be_bytes();
    frame.try_extend_from_slice(&check).unwrap();
    frame
}
