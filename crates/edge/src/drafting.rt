ghost use Rattle.std.specs.Prelude.{◌≡◌};
ghost use Rattle.label.specs.Drafts.{done};
ghost use Rattle.edge.specs.Drafting.{three_bytes, two_tags, beside};

use crate::sill::SILL;
use crate::table::worked_labels;
use label::draft;
use label::refusal::Refusal;
use label::sealed::Draft;
use label::tag::Tag;

// Tags three bytes of the sill's text, in class 56.
pub fn tag_three_bytes(start: u8) -> Result<(), Refusal>
    ensures { result ≡ done (three_bytes start) tt }
{
    let mut draft = Draft::open(SILL)?;
    draft.tag(Tag {
        class: 56,
        start,
        extent: 2,
    })
}

// Tags two parts of it, one after the other.
fn tag_two(first: Tag, second: Tag) -> Result<(), Refusal>
    ensures { result ≡ done (two_tags first second) tt }
{
    let mut draft = Draft::open(SILL)?;
    draft.tag(first)?;
    draft.tag(second)
}

// Tags a part from 0 on in class 1, and then the four bytes from 4 on in class 4.
pub fn tag_beside(extent: u8) -> Result<(), Refusal>
    ensures { result ≡ done (beside extent) tt }
{
    worked_labels();
    let front = Tag {
        class: 1,
        start: 0,
        extent,
    };
    let middle = Tag {
        class: 4,
        start: 4,
        extent: 3,
    };
    tag_two(front, middle)
}
