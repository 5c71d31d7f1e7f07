ghost use Rattle.std.specs.Prelude.{refl};
ghost use Rattle.std.proofs.Common.{rules};
ghost use Rattle.dab.specs.Text.{Flagged, dab_segments};
ghost use Rattle.dab.specs.Held.{flagged};

use carrier::short_list::ShortList;
use taking::look::Look;
use taking::segment::Segment;

// A text segment as it arrives: its data bytes, and whether it is the last.
#[derive(Clone, Copy)]
pub struct DabSegment {
    pub(crate) data: ShortList<u8, 16>,
    pub(crate) last: bool,
}

impl Segment<8> for DabSegment {
    ghost Meant = { Flagged };

    ghost meant = { flagged };

    ghost segments = { dab_segments };

    ghost counts = { refl };

    ghost some = { Prim.search rules };

    fn past() -> Look {
        Look::Unlike
    }

    fn shuts() -> bool {
        true
    }

    fn ends_behind_all() -> bool {
        false
    }

    fn ends(&self) -> bool {
        self.last
    }

    fn is_same(&self, other: &Self) -> bool {
        self.part() == other.part() && self.last == other.last
    }

    fn part(&self) -> &[u8] {
        self.data.as_slice()
    }
}
