ghost use Rattle.std.specs.Prelude.{◌≡◌, true, false, length, MatchOption};
ghost use Rattle.label.specs.Lawful.{apart};
ghost use Rattle.label.specs.Lists.{any};
ghost use Rattle.label.specs.Tags.{part, behind, lies_in, sounds, shares, of_class, is_descriptor, is_other};

use crate::category::{Category, is_silent};

// A tag marks a part of a text for a class: extent + 1 bytes from the start. Start and extent are the start marker and the length marker.
#[derive(Clone, Copy, Debug, Default, PartialEq, Eq)]
pub struct Tag {
    pub class: u8,
    pub start: u8,
    pub extent: u8,
}

// The two item bits of a label.
#[derive(Clone, Copy, Debug, Default, PartialEq, Eq)]
pub struct ItemBits {
    pub toggle: bool,
    pub running: bool,
}

impl Tag {
    // The position behind its part.
    pub fn end(self) -> usize
        ensures { result ≡ behind self }
    {
        usize::from(self.start) + usize::from(self.extent) + 1
    }

    // Its part of the text, or nothing where the part leaves the text.
    pub fn part<'a>(self, text: &'a [u8]) -> Option<&'a [u8]>
        ensures { MatchOption result (lies_in (length text.now) self ≡ false) (λ p. (lies_in (length text.now) self ≡ true) × (p.now ≡ part text.now self)) }
    {
        text.get(usize::from(self.start)..self.end())
    }

    // A tag of a silent class marks nothing.
    pub(crate) fn sounds(self) -> bool
        ensures { result ≡ sounds self }
    {
        !is_silent(self.class)
    }

    // The two parts share a position.
    pub(crate) fn shares(self, other: Tag) -> bool
        ensures { result ≡ shares self other }
    {
        usize::from(other.start) < self.end() && usize::from(self.start) < other.end()
    }

    pub(crate) fn is_descriptor(self) -> bool
        ensures { result ≡ is_descriptor self }
    {
        Category::of(self.class) == Some(Category::Descriptor)
    }

    // Neither silent nor a Descriptor.
    pub(crate) fn is_other(self) -> bool
        ensures { result ≡ is_other self }
    {
        self.sounds() && !self.is_descriptor()
    }

    // They can stand in one list: other classes, and no position in both parts.
    pub(crate) fn is_apart_from(self, other: Tag) -> bool
        ensures { result ≡ apart self other }
    {
        self.class != other.class && !self.shares(other)
    }

    pub(crate) fn shares_with_one(self, tags: &[Tag]) -> bool
        ensures { result ≡ any (shares self) tags.now }
    {
        tags.iter().any(|t| self.shares(*t))
    }

    // A tag of the list has its class.
    pub(crate) fn has_its_class(self, tags: &[Tag]) -> bool
        ensures { result ≡ any (of_class self.class) tags.now }
    {
        tags.iter().any(|t| self.class == t.class)
    }
}

pub(crate) fn has_descriptor(tags: &[Tag]) -> bool
    ensures { result ≡ any is_descriptor tags.now }
{
    tags.iter().any(|t| t.is_descriptor())
}

pub(crate) fn has_other(tags: &[Tag]) -> bool
    ensures { result ≡ any is_other tags.now }
{
    tags.iter().any(|t| t.is_other())
}
