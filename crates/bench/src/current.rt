ghost use Rattle.std.specs.Prelude.{◌≡◌, MatchResult};
ghost use Rattle.label.specs.Drafts.{sealed_outline};
ghost use Rattle.script.specs.declared.fault.Fault.TheVariants.{Wrong};

use label::sealed::{Draft, Sealed};
use script::fault::Fault;

// The label on the bench, with the text over which it was opened.
#[derive(Drop)]
pub enum Current {
    Nothing,
    Drafted(Draft, Vec<u8>),
    Closed(Sealed, Vec<u8>),
}

impl Current {
    ghost use Rattle.bench.specs.Held.{held, OfSealed};

    // The sealed label, and the text over which it goes: its own, unless another is given.
    pub fn sealed<'a>(&'a self, other: &'a Option<Vec<u8>>) -> Result<(&'a Sealed, &'a [u8]), Fault>
        ensures { MatchResult result (λ p. OfSealed (held self.now) other.now (λ o text. (sealed_outline p.0.now ≡ o) × (p.1.now ≡ text)) ⊥) (λ e. (e ≡ Wrong) × OfSealed (held self.now) other.now (λ o text. ⊥) (Unit {0})) }
    {
        let Current::Closed(label, own) = self else {
            return Err(Fault::Wrong);
        };
        match other {
            Some(text) => Ok((label, text.as_slice())),
            None => Ok((label, own.as_slice())),
        }
    }
}
