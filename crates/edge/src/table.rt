ghost use Rattle.std.specs.Prelude.{◌≡◌, ℕ, false, List};
ghost use Rattle.edge.specs.Frames.{service, sill_on_fm, sill_on_dab, written, in_row};
ghost use Rattle.edge.specs.Labels.{sill, sill_outline};
ghost use Rattle.edge.specs.Laws.{on_fm, on_dab};
ghost use Rattle.edge.specs.Worked.{WorkedLabels};

use carrier::carrier::Carrier;
use dab::dab::Dab;
use fm::fm::Fm;

// The worked labels are as the table says.
pub fn worked_labels()
    ensures { WorkedLabels }
{}

// A carrier on which the table has the sill's label, frame by frame.
pub trait Worked: Carrier {
    ghost rows: { List (List ℕ) };

    ghost in_rows: { (n : ℕ) → written Self.meaning.writing sill_outline sill false service n ≡ in_row rows n };
}

impl Worked for Fm {
    ghost rows = { sill_on_fm };

    ghost in_rows = { on_fm };
}

impl Worked for Dab {
    ghost rows = { sill_on_dab };

    ghost in_rows = { on_dab };
}
