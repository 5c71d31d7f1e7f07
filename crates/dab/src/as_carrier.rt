ghost use Rattle.dab.specs.Taking.{State, dab};
ghost use Rattle.dab.specs.Held.{dab_state};
ghost use Rattle.dab.specs.Laws.{dab_lawful};

use crate::dab::Dab;
use crate::open::open;
use crate::text::last_segment;
use crate::writing::lay;
use carrier::airing::Airing;
use carrier::answer::Answer;
use carrier::carrier::Carrier;
use carrier::told::Told;
use carrier::writing::{PLACE, may_write};
use label::draft;
use label::refusal::Refusal;
use label::sealed::Sealed;
use taking::taken::Taking;

impl Carrier for Dab {
    ghost State = { State };

    ghost state = { dab_state };

    ghost meaning = { dab };

    ghost lawful = { dab_lawful };

    fn fits(label: &Sealed) -> bool {
        label.len() <= 128 && label.tags().len() <= 4
    }

    fn count(label: &Sealed) -> usize {
        last_segment(label.len()) + 2
    }

    fn write(airing: &Airing<'_>, number: usize, space: &mut [u8]) -> Result<(), Refusal> {
        let label = airing.label;
        // (A function of the trait that asks for both itself would lead back to this one.)
        may_write(
            Self::fits(label),
            Self::count(label),
            label,
            airing.text,
            number,
            space.len(),
        )?;
        space[..PLACE].copy_from_slice(&lay(airing, number));
        Ok(())
    }

    fn new() -> Dab {
        Dab {
            taking: Taking::new(),
        }
    }

    fn take(&mut self, frame: &[u8]) -> Result<Answer, Refusal> {
        let opened = open(frame)?;
        self.take_opened(&opened)
    }

    fn standing(&self) -> Option<bool> {
        self.taking.standing()
    }

    fn told(&self) -> Option<&Told> {
        self.taking.told()
    }
}
