// The theorem on named carriers, and runs that meet its premises.
#![tactic(auto)]

ghost use Rattle.agreement.specs.Runs.{Agreement};
ghost use Rattle.dab.specs.Taking.{dab};
ghost use Rattle.fm.specs.Taking.{fm};
ghost use Rattle.witness.specs.Sill.{ShowsOnBoth};

use agreement::theorem::{carriers_agree, history_decides};
use dab::dab::Dab;
use fm::fm::Fm;

// Stations and displays on FM agree with those on DAB.
pub fn fm_and_dab_agree()
    ensures { Agreement fm dab }
{
    carriers_agree::<Fm, Dab>();
}

// A display on FM, and one on DAB, that hears one label in full holds what its tags mark.
pub fn both_show_the_sill()
    ensures { ShowsOnBoth }
{
    carriers_agree::<Fm, Fm>();
    carriers_agree::<Dab, Dab>();
    history_decides();
}
