ghost use Rattle.std.specs.Prelude.{◌≡◌, ◌<◌, ◌≤◌, length, Contains};
ghost use Rattle.label.specs.Classes.{item_class};
ghost use Rattle.label.specs.Tags.{part, deletion};
ghost use Rattle.carrier.specs.Aired.{told_label};
ghost use Rattle.display.specs.Held.{is_stored};

use carrier::told::Told;
use label::category::Category;
use label::part::is_deletion;
use label::tag::Tag;

// A part of a complete label, with the class that it is marked for: the class has a row, and the part has room there.
#[derive(Clone, Copy)]
pub(crate) struct Marked<'a> {
    pub(crate) class: u8,
    pub(crate) part: &'a [u8],
    ghost small: { class < 64 },
    ghost room: { length part.now ≤ 128 },
}

impl<'a> Marked<'a> {
    // What a tag of the label marks.
    #[tactic(auto, using(crate::proofs::Steps::class_small, crate::proofs::Steps::part_short))]
    pub(crate) fn by(tag: Tag, told: &'a Told) -> Marked<'a>
        requires { Contains (told_label told.now).tags tag }
        ensures class { result.class ≡ tag.class }
        ensures part { result.part.now ≡ part (told_label told.now).text tag }
    {
        Marked {
            class: tag.class,
            part: tag.part(told.text.as_slice()).unwrap(),
        }
    }

    pub(crate) fn is_deletion(self) -> bool
        ensures { result ≡ deletion self.entry.part.now }
    {
        is_deletion(self.part)
    }

    pub(crate) fn is_item(self) -> bool
        ensures { result ≡ item_class self.entry.class }
    {
        Category::of(self.class) == Some(Category::Item)
    }

    // It is no deletion, and of an Item class only while the item runs.
    pub(crate) fn is_stored(self, running: bool) -> bool
        ensures { result ≡ is_stored self.entry.class self.entry.part.now running }
    {
        !self.is_deletion() && (!self.is_item() || running)
    }
}
