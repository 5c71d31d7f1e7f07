ghost use Rattle.std.specs.Prelude.{◌≡◌, ◌≤◌, take};
ghost use Rattle.label.specs.Drafts.{sealed_outline, done};
ghost use Rattle.label.specs.Refusals.{Own, frame_writing};
ghost use Rattle.carrier.specs.Writing.{place, refusal_by};

use label::draft;
use label::refusal::Refusal;
use label::sealed::Sealed;

// The bytes of a place: a frame's length, and room for the longest frame.
pub const PLACE: usize = 21;

const LONGEST: usize = PLACE - 1;

// Whether a frame may be written, by whether the label fits and how many frames it has.
pub fn may_write(
    fits: bool,
    count: usize,
    label: &Sealed,
    text: &[u8],
    number: usize,
    room: usize,
) -> Result<(), Refusal>
    ensures own { Own frame_writing result }
    ensures value { result ≡ done (refusal_by fits count (sealed_outline label.now) text.now number room) tt }
{
    if !fits {
        return Err(Refusal::LabelDoesNotFit);
    }
    if !label.matches(text) {
        return Err(Refusal::OtherText);
    }
    if room < PLACE {
        return Err(Refusal::SmallBuffer);
    }
    if number >= count {
        return Err(Refusal::NoSuchFrame);
    }
    Ok(())
}

// The first 20 bytes of a frame, laid out in a place.
pub fn in_place(frame: &[u8]) -> [u8; PLACE]
    ensures { result ≡ place (take 20 frame.now) }
{
    let n = frame.len().min(LONGEST);
    let mut place = [0; PLACE];
    place[0] = n as u8;
    place[1..n + 1].copy_from_slice(&frame[..n]);
    place
}
