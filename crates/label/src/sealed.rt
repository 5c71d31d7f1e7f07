ghost use Rattle.std.specs.Prelude.{◌≡◌, ◌≤◌, true};
ghost use Rattle.label.specs.Lawful.{sealable};

use crate::tag::Tag;
use arrayvec::ArrayVec;

// A label that is being tagged: its text's length and its tags, never the text, which stays with the caller.
#[derive(Drop)]
pub struct Draft {
    pub(crate) len: usize,
    pub(crate) tags: ArrayVec<Tag, 4>,
    ghost some: { 1 ≤ len },
    ghost short: { len ≤ 128 },
    ghost right: { sealable len tags.items ≡ true },
}

// A label that is ready to be sent. It has no more tags to come: reopen it first.
#[derive(Drop)]
pub struct Sealed(pub(crate) Draft);
