ghost use Rattle.fm.specs.Taking.{FmState, fm};
ghost use Rattle.fm.specs.Views.{fm_view};
ghost use Rattle.fm.specs.Laws.{fm_lawful};

use crate::blocks::Blocks;
use crate::fm::Fm;
use crate::frame::{ANNOUNCEMENT, TEXT, frame, last_segment};
use carrier::airing::Airing;
use carrier::answer::Answer;
use carrier::carrier::Carrier;
use carrier::told::Told;
use carrier::writing::{PLACE, in_place, may_write};
use label::refusal::Refusal;
use label::sealed::Sealed;
use taking::taken::Taking;

impl Carrier for Fm {
    ghost State = { FmState };

    ghost state = { fm_view };

    ghost meaning = { fm };

    ghost lawful = { fm_lawful };

    fn fits(label: &Sealed) -> bool {
        label.len() <= 64 && label.tags().len() <= 2
    }

    fn count(label: &Sealed) -> usize {
        last_segment(label.len()) + 3
    }

    fn write(airing: &Airing<'_>, number: usize, space: &mut [u8]) -> Result<(), Refusal> {
        // (A function of the trait that asks for both itself would lead back to this one.)
        may_write(
            Self::fits(airing.label),
            Self::count(airing.label),
            airing.label,
            airing.text,
            number,
            space.len(),
        )?;
        space[..PLACE].copy_from_slice(&in_place(&frame(airing, number)));
        Ok(())
    }

    fn new() -> Fm {
        Fm {
            taking: Taking::new(),
            group: None,
        }
    }

    fn take(&mut self, frame: &[u8]) -> Result<Answer, Refusal> {
        let blocks = Blocks::try_from(frame)?;
        if !blocks.is_version_a() {
            return Ok(Answer::PassedOver);
        }
        match blocks.group() {
            TEXT => Ok(self.take_text(&blocks)),
            ANNOUNCEMENT if blocks.is_announcement() => self.learn(&blocks),
            group if self.group == Some(group) => self.take_tags(&blocks),
            _ => Ok(Answer::PassedOver),
        }
    }

    fn standing(&self) -> Option<bool> {
        self.taking.standing()
    }

    fn told(&self) -> Option<&Told> {
        self.taking.told()
    }
}
