ghost use Rattle.std.specs.Prelude.{◌≡◌, true, length};
ghost use Rattle.label.specs.Lawful.{sealable};
ghost use Rattle.carrier.specs.Listed.{listed};

use crate::short_list::ShortList;
use label::tag::{ItemBits, Tag};

// A complete label.
#[derive(Clone, Copy)]
pub struct Told {
    pub text: ShortList<u8, 128>,
    pub tags: ShortList<Tag, 4>,
    pub item: ItemBits,
    ghost right: { sealable (length (listed text)) (listed tags) ≡ true },
}
