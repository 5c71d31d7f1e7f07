ghost use Rattle.std.specs.Prelude.{◌≡◌, true};
ghost use Rattle.label.specs.Drafts.{matches};
ghost use Rattle.carrier.specs.Aired.{frame_of, outline};
ghost use Rattle.carrier.specs.Writing.{place};
ghost use Rattle.dab.specs.Frames.{dab_writing};

use crate::command::command_frame;
use crate::text::Text;
use arrayvec::ArrayVec;
use carrier::airing::Airing;
use carrier::writing::{PLACE, in_place};
use label::draft;

// A label's frame: the text's segments, then the command.
fn airing_frame(airing: &Airing<'_>, number: usize) -> ArrayVec<u8, 20>
    requires fits { dab_writing.fits (outline airing.now) ≡ true }
    requires own { matches (outline airing.now) airing.now.text.now ≡ true }
    ensures { result.items ≡ frame_of dab_writing airing.now number }
{
    let text = Text { bytes: airing.text };
    if number <= text.last() {
        text.frame(airing.toggle, number)
    } else {
        command_frame(airing.item, airing.label.tags(), airing.toggle)
    }
}

// The frame in its place.
pub(crate) fn lay(airing: &Airing<'_>, number: usize) -> [u8; PLACE]
    requires fits { dab_writing.fits (outline airing.now) ≡ true }
    requires own { matches (outline airing.now) airing.now.text.now ≡ true }
    ensures { result ≡ place (frame_of dab_writing airing.now number) }
{
    in_place(&airing_frame(airing, number))
}
