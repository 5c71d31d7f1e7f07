ghost use Rattle.std.specs.Prelude.{◌≡◌};
ghost use Rattle.edge.specs.Drafting.{SealedAs};
ghost use Rattle.edge.specs.Frames.{in_row};
ghost use Rattle.edge.specs.Labels.{sill_outline};

use crate::table::Worked;
use carrier::airing::Airing;
use carrier::carrier::in_own_place;
use carrier::writing::PLACE;
use label::draft;
use label::refusal::Refusal;
use label::sealed::{Draft, Sealed};
use label::tag::{ItemBits, Tag};

pub(crate) const SILL: &[u8; 10] = b"Sill 2.4 m";

// The sill's label, ready to be sent.
pub fn sealed() -> Result<Sealed, Refusal>
    ensures { SealedAs sill_outline result }
{
    let mut draft = Draft::open(SILL)?;
    draft.tag(Tag {
        class: 56,
        start: 5,
        extent: 2,
    })?;
    Ok(draft.seal())
}

// A frame of the sill's label outside any item: the carrier's row of that number, on DAB its check included.
pub fn frame<W: Worked>(number: usize) -> Result<[u8; PLACE], Refusal>
    ensures { result ≡ in_row W.rows number }
{
    let airing = Airing {
        label: &sealed()?,
        text: SILL,
        item: ItemBits::default(),
        toggle: false,
        service: 0x1234,
    };
    in_own_place::<W>(&airing, number)
}
