use carrier::short_list::ShortList;
use label::tag::{ItemBits, Tag};

// Up to four tags with their item bits, as they arrive.
#[derive(Clone, Copy)]
pub struct Arrived {
    pub item: ItemBits,
    pub tags: ShortList<Tag, 4>,
}
