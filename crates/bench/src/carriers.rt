ghost use Rattle.std.specs.Prelude.{◌≡◌, ◌++◌, length, drop, MatchResult, ◌≢◌};
ghost use Rattle.label.specs.Drafts.{sealed_outline, done, left};
ghost use Rattle.label.specs.Label.{label_of};
ghost use Rattle.carrier.specs.Writing.{place, write_refusal};
ghost use Rattle.script.specs.declared.fault.Fault.TheVariants.{Wrong};
ghost use Rattle.bench.specs.Carriers.{writing_of, no_item, name_of};

use carrier::airing::Airing;
use carrier::carrier::Carrier;
use dab::dab::Dab;
use fm::fm::Fm;
use label::refusal::Refusal;
use label::sealed::Sealed;
use label::tag::ItemBits;
use script::fault::Fault;
use std::str::FromStr;

// The carriers by their names.
#[derive(Clone, Copy)]
pub enum Named {
    Fm,
    Dab,
}

// Which frame of a label is wanted.
#[derive(Clone, Copy)]
pub struct Wanted {
    pub toggle: bool,
    pub service: u16,
    pub number: usize,
}

impl Wanted {
    // Writes this frame with both item bits 0.
    fn write<C: Carrier>(self, label: &Sealed, text: &[u8], space: &mut [u8]) -> Result<(), Refusal>
        ensures reply { result ≡ done (write_refusal C.meaning.writing (sealed_outline label.now) text.now self.number (length space.old)) tt }
        ensures space { space.new ≡ left (write_refusal C.meaning.writing (sealed_outline label.now) text.now self.number (length space.old)) (place (C.meaning.writing.frame (label_of (sealed_outline label.now) no_item text.now) self.toggle self.service self.number) ++ drop 21 space.old) space.old }
    {
        let airing = Airing {
            label,
            text,
            item: ItemBits::default(),
            toggle: self.toggle,
            service: self.service,
        };
        C::write(&airing, self.number, space)
    }
}

// A carrier by its name alone.
impl FromStr for Named {
    ghost use Rattle.bench.specs.declared.carriers.Named.{Named};

    type Err = Fault;

    ghost from_str_gives = { λ word r. MatchResult r (λ c. word ≡ name_of c) (λ e. (e ≡ Wrong) × ((c : Named) → word ≢ name_of c)) };

    fn from_str(word: &str) -> Result<Named, Fault> {
        match word {
            "fm" => Ok(Named::Fm),
            "dab" => Ok(Named::Dab),
            _ => Err(Fault::Wrong),
        }
    }
}

impl Named {
    // Each call is switched on the name: what it calls has no value that could be picked once.
    pub fn fits(self, label: &Sealed) -> bool
        ensures { result ≡ (writing_of self).fits (sealed_outline label.now) }
    {
        match self {
            Named::Fm => Fm::fits(label),
            Named::Dab => Dab::fits(label),
        }
    }

    pub fn count(self, label: &Sealed) -> usize
        ensures { result ≡ (writing_of self).count (sealed_outline label.now) }
    {
        match self {
            Named::Fm => Fm::count(label),
            Named::Dab => Dab::count(label),
        }
    }

    // Writes a frame with both item bits 0.
    pub fn write(
        self,
        label: &Sealed,
        text: &[u8],
        frame: Wanted,
        space: &mut [u8],
    ) -> Result<(), Refusal>
        ensures reply { result ≡ done (write_refusal (writing_of self) (sealed_outline label.now) text.now frame.number (length space.old)) tt }
        ensures space { space.new ≡ left (write_refusal (writing_of self) (sealed_outline label.now) text.now frame.number (length space.old)) (place ((writing_of self).frame (label_of (sealed_outline label.now) no_item text.now) frame.toggle frame.service frame.number) ++ drop 21 space.old) space.old }
    {
        match self {
            Named::Fm => frame.write::<Fm>(label, text, space),
            Named::Dab => frame.write::<Dab>(label, text, space),
        }
    }
}
