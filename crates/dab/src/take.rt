ghost use Rattle.std.specs.Prelude.{◌≡◌};
ghost use Rattle.carrier.specs.Meaning.{reply, next};
ghost use Rattle.dab.specs.Taking.{take_text, take_command, take_body};
ghost use Rattle.dab.specs.Opened.{at_frame};
ghost use Rattle.dab.specs.Held.{dab_state};

use crate::dab::Dab;
use crate::head::Head;
use crate::open::Opened;
use crate::prefix::DL_PLUS;
use crate::segment::DabSegment;
use crate::tags::tags_in;
use carrier::answer::Answer;
use carrier::short_list::ShortList;
use label::refusal::Refusal;
use taking::arrived::Arrived;
use taking::held::Piece;

impl Dab {
    // Takes a text segment.
    fn take_text(&mut self, frame: &Opened<'_>) -> Result<Answer, Refusal>
        ensures reply { result ≡ reply (at_frame take_text (dab_state self.old) frame.now) }
        ensures next { dab_state self.new ≡ next (dab_state self.old) (at_frame take_text (dab_state self.old) frame.now) }
    {
        let Opened { prefix, load } = *frame;
        if prefix.text_len() != load.bytes.len() {
            return Err(Refusal::WrongLength);
        }
        let number = prefix.segment_number()?;
        let len = load.bytes.len();
        let mut places = [0; 16];
        places[..len].copy_from_slice(load.bytes);
        let segment = DabSegment {
            data: ShortList::new(places, len),
            last: prefix.is_last(),
        };
        let piece = Piece { number, segment };
        Ok(self.taking.on_text(prefix.text_toggle(), &piece))
    }

    // Takes a command of DL Plus.
    fn take_command(&mut self, frame: &Opened<'_>) -> Result<Answer, Refusal>
        ensures reply { result ≡ reply (at_frame take_command (dab_state self.old) frame.now) }
        ensures next { dab_state self.new ≡ next (dab_state self.old) (at_frame take_command (dab_state self.old) frame.now) }
    {
        let Opened { prefix, load } = *frame;
        if prefix.command_len() != load.bytes.len() {
            return Err(Refusal::WrongLength);
        }
        let head = Head(load.bytes[0]);
        if !head.has_tags() {
            return Ok(Answer::PassedOver);
        }
        if !frame.is_whole_command(head) {
            return Err(Refusal::WrongCommand);
        }
        let arrived = Arrived {
            item: head.item(),
            tags: ShortList::from(tags_in(&load.bytes[1..])),
        };
        self.taking.on_tags(Some(prefix.command_toggle()), &arrived)
    }

    // Takes a frame that was opened.
    pub(crate) fn take_opened(&mut self, frame: &Opened<'_>) -> Result<Answer, Refusal>
        ensures reply { result ≡ reply (at_frame take_body (dab_state self.old) frame.now) }
        ensures next { dab_state self.new ≡ next (dab_state self.old) (at_frame take_body (dab_state self.old) frame.now) }
    {
        let prefix = frame.prefix;
        if !prefix.is_command() {
            return self.take_text(frame);
        }
        if prefix.command() == DL_PLUS {
            return self.take_command(frame);
        }
        Ok(Answer::PassedOver)
    }
}
