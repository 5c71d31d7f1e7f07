ghost use Rattle.std.specs.Prelude.{◌≡◌, ◌≤◌, true, length, take};
ghost use Rattle.label.specs.Lawful.{lawful};
ghost use Rattle.label.specs.Tags.{sounding};
ghost use Rattle.carrier.specs.Aired.{told_label};
ghost use Rattle.taking.specs.Taking.{label_from, agrees};
ghost use Rattle.taking.specs.Views.{tags_of};

use crate::arrived::Arrived;
use arrayvec::ArrayVec;
use carrier::short_list::ShortList;
use carrier::told::Told;
use label::alike::are_alike;
use label::category::is_silent;
use label::lawful::is_lawful;
use label::tag::{ItemBits, Tag};

// The tags without silent ones.
fn sounded(tags: &[Tag]) -> ArrayVec<Tag, 4>
    requires { length tags.now ≤ 4 }
    ensures tags { result.items ≡ sounding tags.now }
    ensures few { length result.items ≤ length tags.now }
{
    let mut sounding = ArrayVec::try_from(tags).unwrap();
    sounding.retain(|tag| !is_silent(tag.class));
    sounding
}

impl Arrived {
    // The first of four tags, as many as the count says.
    pub fn new(item: ItemBits, tags: [Tag; 4], count: usize) -> Arrived
        ensures { tags_of result ≡ record { item = item; tags = take count tags } }
    {
        Arrived {
            item,
            tags: ShortList::new(tags, count),
        }
    }

    // The tags are lawful for a text of this many bytes.
    pub(crate) fn are_lawful(&self, len: usize) -> bool
        ensures lawful { result ≡ lawful len (tags_of self.now).tags }
        ensures few { length (tags_of self.now).tags ≤ 4 }
    {
        is_lawful(len, self.tags.as_slice())
    }

    // Tags and item bits are like the label's, silent tags and order aside.
    pub(crate) fn agree_with(&self, told: &Told) -> bool
        ensures { result ≡ agrees (told_label told.now) (tags_of self.now) }
    {
        let alike = are_alike(told.tags.as_slice(), self.tags.as_slice());
        alike && told.item == self.item
    }

    // The label that they tell over a text.
    pub(crate) fn tell(self, text: ArrayVec<u8, 128>) -> Told
        requires lawful { lawful (length text.items) (tags_of self).tags ≡ true }
        requires few { length (tags_of self).tags ≤ 4 }
        ensures { told_label result ≡ label_from text.items (tags_of self) }
    {
        Told {
            text: ShortList::from(text),
            tags: ShortList::from(sounded(self.tags.as_slice())),
            item: self.item,
        }
    }
}
