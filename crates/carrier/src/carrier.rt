ghost use Rattle.std.specs.Prelude.{◌≡◌, ◌≤◌, ◌++◌, length, drop, is_some};
ghost use Rattle.std.specs.Option.{option_map};
ghost use Rattle.label.specs.Drafts.{sealed_outline, done, left};
ghost use Rattle.label.specs.Refusals.{Own, frame_writing};
ghost use Rattle.carrier.specs.Aired.{airing_refusal, frame_of, told_label};
ghost use Rattle.carrier.specs.Hearing.{Lawful};
ghost use Rattle.carrier.specs.Meaning.{Meaning, reply, next, told_text, told_tags, told_item, Plain};
ghost use Rattle.carrier.specs.Writing.{place};

use crate::airing::Airing;
use crate::answer::Answer;
use crate::told::Told;
use crate::writing::PLACE;
use label::refusal::Refusal;
use label::sealed::Sealed;
use label::tag::{ItemBits, Tag};

// A carrier of labels. Its writing side has no state; a value of the type is its taking side.
pub trait Carrier {
    ghost State: { Type 0 };

    ghost state: { Self → State };

    ghost meaning: { Meaning State };

    // The label fits, whatever its item bits.
    fn fits(label: &Sealed) -> bool
        ensures { result ≡ meaning.writing.fits (sealed_outline label.now) };

    // How many frames the label has.
    fn count(label: &Sealed) -> usize
        ensures { result ≡ meaning.writing.count (sealed_outline label.now) };

    // Writes one frame into its place, the first 21 bytes of the space: its length, the frame, zeros.
    fn write(airing: &Airing<'_>, number: usize, space: &mut [u8]) -> Result<(), Refusal>
        ensures reply { result ≡ done (airing_refusal meaning.writing airing.now number (length space.old)) tt }
        ensures own { Own frame_writing result }
        ensures space { space.new ≡ left (airing_refusal meaning.writing airing.now number (length space.old)) (place (frame_of meaning.writing airing.now number) ++ drop 21 space.old) space.old };

    fn new() -> Self
        ensures { state result ≡ meaning.fresh };

    // Takes a frame.
    fn take(&mut self, frame: &[u8]) -> Result<Answer, Refusal>
        ensures reply { result ≡ reply (meaning.step (state self.old) frame.now) }
        ensures next { state self.new ≡ next (state self.old) (meaning.step (state self.old) frame.now) };

    // The standing message toggle, unknown when new.
    fn standing(&self) -> Option<bool>
        ensures { result ≡ meaning.standing (state self.now) };

    // The complete label.
    fn told(&self) -> Option<&Told>
        ensures { option_map (λ t. told_label t.now) result ≡ meaning.told (state self.now) };

    // A label is complete.
    final fn is_complete(&self) -> bool
        ensures { result ≡ is_some (meaning.told (state self.now)) }
    {
        self.told().is_some()
    }

    // The complete label's text, or nothing.
    final fn text(&self) -> &[u8]
        ensures value { result.now ≡ told_text (meaning.told (state self.now)) }
        ensures short { length result.now ≤ 128 }
    {
        match self.told() {
            None => &[],
            Some(told) => told.text.as_slice(),
        }
    }

    // The complete label's tags, or none.
    final fn tags(&self) -> &[Tag]
        ensures value { result.now ≡ told_tags (meaning.told (state self.now)) }
        ensures plain { Plain (told_text (meaning.told (state self.now))) result.now }
    {
        match self.told() {
            None => &[],
            Some(told) => told.tags.as_slice(),
        }
    }

    // The complete label's item bits, or zeros.
    final fn item(&self) -> ItemBits
        ensures { result ≡ told_item (meaning.told (state self.now)) }
    {
        match self.told() {
            None => ItemBits::default(),
            Some(told) => told.item,
        }
    }

    ghost lawful: { Lawful meaning };
}

// One frame of a label, in a place of its own.
pub fn in_own_place<C: Carrier>(airing: &Airing<'_>, number: usize) -> Result<[u8; PLACE], Refusal>
    ensures { result ≡ done (airing_refusal C.meaning.writing airing.now number 21) (place (frame_of C.meaning.writing airing.now number)) }
{
    let mut place = [0; PLACE];
    C::write(airing, number, &mut place)?;
    Ok(place)
}
