ghost use Rattle.std.specs.Prelude.{◌≡◌, ◌≤◌, length};
ghost use Rattle.dab.specs.Frames.{sent_tags, tag_bytes, command_data, command_body, framed};

use crate::frame::frame;
use crate::head::Head;
use crate::load::Load;
use crate::prefix::Prefix;
use arrayvec::ArrayVec;
use label::tag::{ItemBits, Tag};

// With no tags, one that is all zeros is sent. Written out, as `default` makes no const.
const NO_TAGS: [Tag; 1] = [Tag {
    class: 0,
    start: 0,
    extent: 0,
}];

// The tags of a command: one to four.
#[derive(Clone, Copy)]
struct SentTags<'a> {
    tags: &'a [Tag],
    ghost some: { 1 ≤ length tags.now },
    ghost few: { length tags.now ≤ 4 },
}

fn tag_bytes(tag: Tag) -> [u8; 3]
    ensures { result ≡ tag_bytes tag }
{
    [tag.class, tag.start, tag.extent]
}

impl<'a> SentTags<'a> {
    // (No From: a caller owes the bound.)
    fn of(tags: &'a [Tag]) -> SentTags<'a>
        requires { length tags.now ≤ 4 }
        ensures { result.tags.now ≡ sent_tags tags.now }
    {
        SentTags {
            tags: if tags.is_empty() { &NO_TAGS } else { tags },
        }
    }

    // The data of their command.
    #[tactic(auto, using(crate::specs::TagBytes::length_tags, std::proofs::lemmas::List::take_more))]
    fn data(&self, item: ItemBits) -> ArrayVec<u8, 16>
        ensures { result.items ≡ command_data item self.now.tags.now }
    {
        let mut bytes = ArrayVec::new();
        let Head(head) = Head::new(item, self.tags.len());
        bytes.push(head);
        // a loop, as `collect` takes an allocator
        for tag in self.tags {
            bytes.try_extend_from_slice(&tag_bytes(*tag)).unwrap();
        }
        bytes
    }
}

// The frame of a label's command.
pub(crate) fn command_frame(item: ItemBits, tags: &[Tag], toggle: bool) -> ArrayVec<u8, 20>
    requires { length tags.now ≤ 4 }
    ensures { result.items ≡ framed (command_body item (sent_tags tags.now) toggle) }
{
    let bytes = SentTags::of(tags).data(item);
    let load = Load { bytes: &bytes };
    frame(Prefix::of_command(toggle, &load), &load)
}
