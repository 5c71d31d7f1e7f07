ghost use Rattle.std.specs.Prelude.{◌≡◌, ℕ, ◌+◌, ◌*◌, ◌<◌, ◌≤◌, ◌++◌, cond, [], length, Some, None};
ghost use Rattle.taking.specs.Segments.{Segments};

use crate::look::Look;
use arrayvec::ArrayVec;

// A carrier's segment of a text: there are N, with numbers from 0 on.
pub trait Segment<const N: usize>: Drop {
    ghost Meant: { Type 0 };

    ghost meant: { Self → Meant };

    ghost segments: { Segments Meant };

    // How a segment looks that is numbered above a held one in which the text ends.
    fn past() -> Look
        ensures { result ≡ segments.past };

    // A segment in which the text ends is unlike what is held if a segment above it is held.
    fn shuts() -> bool
        ensures { result ≡ segments.shuts };

    // A text that ends in none of the N segments ends behind the last.
    fn ends_behind_all() -> bool
        ensures { segments.unended ≡ cond result (Some []) None };

    // The text ends in this segment.
    fn ends(&self) -> bool
        ensures { result ≡ segments.ends (meant self.now) };

    // (By name, and not PartialEq: it is the rules' own test.)
    fn is_same(&self, other: &Self) -> bool
        ensures { result ≡ segments.same (meant self.now) (meant other.now) };

    // Its part of the text: the parts of N segments are a text of at most 128 bytes.
    fn part(&self) -> &[u8]
        ensures value { result.now ≡ segments.bytes (meant self.now) }
        ensures fits { N * length result.now ≤ 128 };

    // Puts its part behind a text that has room for it, and tells whether the text ends in it. (Together, so that a carrier can read a segment once for both.)
    #[tactic(auto, using(crate::proofs::Rows::room))]
    fn add_to(&self, text: &mut ArrayVec<u8, 128>) -> bool
        requires { N * length text.old.items + 128 ≤ N * 128 }
        ensures text { text.new.items ≡ text.old.items ++ segments.bytes (meant self.now) }
        ensures fits { N * length (segments.bytes (meant self.now)) ≤ 128 }
        ensures ends { result ≡ segments.ends (meant self.now) }
    {
        text.try_extend_from_slice(self.part()).unwrap();
        self.ends()
    }

    ghost counts: { segments.count ≡ N };

    ghost some: { 0 < N };
}
