ghost use Rattle.std.specs.Prelude.{◌≡◌, ◌+◌, ◌*◌, ◌==◌, length};
ghost use Rattle.crc.specs.Check.{check_of};
ghost use Rattle.dab.specs.Taking.{State, right_size, whole_command, dab_step};
ghost use Rattle.dab.specs.Opened.{on_opened};

use crate::head::Head;
use crate::load::Load;
use crate::prefix::Prefix;
use crc::check;
use label::refusal::Refusal;

// A frame whose check holds.
#[derive(Clone, Copy)]
pub(crate) struct Opened<'a> {
    pub(crate) prefix: Prefix,
    pub(crate) load: Load<'a>,
}

impl Opened<'_> {
    // A command's tags are all in this frame, and nothing else is.
    pub(crate) fn is_whole_command(&self, head: Head) -> bool
        ensures { result ≡ whole_command self.now.prefix.first head.0 (length self.now.load.bytes.now) }
    {
        self.prefix.is_whole() && self.load.bytes.len() == 1 + 3 * head.tag_count()
    }
}

fn is_right_size(len: usize) -> bool
    ensures { result ≡ right_size len }
{
    (5..=20).contains(&len)
}

// The two bytes, the high one first, are the check of the others.
fn is_checked(bytes: &[u8], high: u8, low: u8) -> bool
    ensures { result ≡ (check_of bytes.now == high * 256 + low) }
{
    check(bytes) == u16::from_be_bytes([high, low])
}

// Prefix and data of a frame, if its length and its check are right.
#[tactic(auto, unfolding(crate::specs::Taking::step_by))]
pub(crate) fn open(frame: &[u8]) -> Result<Opened<'_>, Refusal>
    ensures { (s : State) → dab_step s frame.now ≡ on_opened s result }
{
    if !is_right_size(frame.len()) {
        return Err(Refusal::WrongSize);
    }
    let [first, second, bytes @ .., high, low] = frame else {
        return Err(Refusal::WrongSize);
    };
    if !is_checked(&frame[..frame.len() - 2], *high, *low) {
        return Err(Refusal::WrongCheck);
    }
    Ok(Opened {
        prefix: Prefix {
            first: *first,
            second: *second,
        },
        load: Load { bytes },
    })
}
