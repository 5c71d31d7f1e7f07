ghost use Rattle.std.specs.Prelude.{◌≡◌, ◌≤◌, length};
ghost use Rattle.dab.specs.Frames.{segment, last_segment, text_body, framed};

use crate::filled::Filled;
use crate::frame::frame;
use crate::load::Load;
use crate::prefix::Prefix;
use arrayvec::ArrayVec;

// The bytes of a segment; the last one holds the rest.
const SEGMENT: usize = 16;

// The number of the last segment of a text of so many bytes.
pub(crate) fn last_segment(len: usize) -> usize
    ensures { result ≡ last_segment len }
{
    len.saturating_sub(1) / SEGMENT
}

// A text that goes out in segments.
pub(crate) type Text<'a> = Filled<'a, 128>;

impl<'a> Filled<'a, 128> {
    // The number of its last segment.
    pub(crate) fn last(&self) -> usize
        ensures { result ≡ last_segment (length self.now.bytes.now) }
    {
        last_segment(self.bytes.len())
    }

    fn segment(&self, number: usize) -> Load<'a>
        requires { number ≤ last_segment (length self.now.bytes.now) }
        ensures { result.bytes.now ≡ segment self.now.bytes.now number }
    {
        let start = SEGMENT * number;
        let end = self.bytes.len().min(start + SEGMENT);
        Load {
            bytes: &self.bytes[start..end],
        }
    }

    // The frame of a segment.
    pub(crate) fn frame(&self, toggle: bool, number: usize) -> ArrayVec<u8, 20>
        requires { number ≤ last_segment (length self.now.bytes.now) }
        ensures { result.items ≡ framed (text_body self.now.bytes.now toggle number) }
    {
        let load = self.segment(number);
        frame(Prefix::of_text(toggle, number, self.last(), &load), &load)
    }
}
