ghost use Rattle.std.specs.Prelude.{◌≡◌, ◌/◌, ◌≤◌, length};
ghost use Rattle.dab.specs.Taking.{tag_in, tags_in};

use arrayvec::ArrayVec;
use label::tag::Tag;

// The tag in three bytes, the high bit of each unread.
fn tag_in(bytes: &[u8; 3]) -> Tag
    ensures { result ≡ tag_in bytes.now }
{
    let [class, start, extent] = *bytes;
    Tag {
        class: class % 128,
        start: start % 128,
        extent: extent % 128,
    }
}

// Up to four tags, one after another.
pub(crate) fn tags_in(bytes: &[u8]) -> ArrayVec<Tag, 4>
    requires { length bytes.now ≤ 12 }
    ensures { result.items ≡ tags_in (length bytes.now / 3) bytes.now }
{
    let mut tags = ArrayVec::new();
    // a loop, as `collect` takes an allocator
    for three in bytes.as_chunks().0 {
        tags.push(tag_in(three));
    }
    tags
}
