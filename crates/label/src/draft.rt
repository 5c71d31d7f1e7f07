ghost use Rattle.std.specs.Prelude.{◌≡◌, ◌≤◌, None};
ghost use Rattle.label.specs.Lists.{any};
ghost use Rattle.label.specs.Refusals.{Own, opening, tagging};
ghost use Rattle.label.specs.Drafts.{draft_outline, sealed_outline, control, opening_refusal, Opens, tagging_refusal, tagged, done, left, matches};

use crate::category::is_silent;
use crate::refusal::Refusal;
use crate::sealed::{Draft, Sealed};
use crate::tag::{Tag, has_other};
use arrayvec::ArrayVec;

fn has_control(text: &[u8]) -> bool
    ensures { result ≡ any control text.now }
{
    text.iter().any(|b| *b < 0x20)
}

// Whether a draft may be opened over a text.
fn may_open(text: &[u8]) -> Result<(), Refusal>
    ensures value { result ≡ done (opening_refusal text.now) tt }
    ensures own { Own opening result }
{
    if text.is_empty() {
        return Err(Refusal::NoText);
    }
    if text.len() > 128 {
        return Err(Refusal::TextTooLong);
    }
    if has_control(text) {
        return Err(Refusal::ControlByte);
    }
    Ok(())
}

impl Draft {
    // Opens a draft over a text.
    pub fn open(text: &[u8]) -> Result<Draft, Refusal>
        ensures opens { Opens text.now result }
        ensures own { Own opening result }
    {
        may_open(text)?;
        Ok(Draft {
            len: text.len(),
            tags: ArrayVec::new(),
        })
    }

    // Adds a tag behind the others.
    pub fn tag(&mut self, tag: Tag) -> Result<(), Refusal>
        ensures reply { result ≡ done (tagging_refusal (draft_outline self.old) tag) tt }
        ensures own { Own tagging result }
        ensures after { draft_outline self.new ≡ left (tagging_refusal (draft_outline self.old) tag) (tagged (draft_outline self.old) tag) (draft_outline self.old) }
    {
        self.may_tag(tag)?;
        self.push(tag);
        Ok(())
    }

    // Whether a tag may come into the draft.
    fn may_tag(&self, tag: Tag) -> Result<(), Refusal>
        ensures value { result ≡ done (tagging_refusal (draft_outline self.now) tag) tt }
        ensures own { Own tagging result }
    {
        if is_silent(tag.class) {
            return Err(Refusal::SilentClass);
        }
        if tag.end() > self.len {
            return Err(Refusal::PartLeavesText);
        }
        let held = self.tags.as_slice();
        if tag.shares_with_one(held) {
            return Err(Refusal::SharedPosition);
        }
        if tag.has_its_class(held) {
            return Err(Refusal::ClassAlreadyIn);
        }
        if tag.is_descriptor() && !has_other(held) {
            return Err(Refusal::LoneDescriptor);
        }
        if held.len() >= 4 {
            return Err(Refusal::FourTagsIn);
        }
        Ok(())
    }

    fn push(&mut self, tag: Tag)
        requires { tagging_refusal (draft_outline self.old) tag ≡ None }
        ensures { draft_outline self.new ≡ tagged (draft_outline self.old) tag }
    {
        self.tags.push(tag);
    }

    // No more tags: the label can be sent.
    pub fn seal(self) -> Sealed
        ensures { sealed_outline result ≡ draft_outline self }
    {
        Sealed(self)
    }
}

impl Sealed {
    // The label can be tagged again, and not be sent.
    pub fn reopen(self) -> Draft
        ensures { draft_outline result ≡ sealed_outline self }
    {
        let Sealed(draft) = self;
        draft
    }

    // The length of its text.
    pub fn len(&self) -> usize
        ensures value { result ≡ (sealed_outline self.now).len }
        ensures some { 1 ≤ result }
        ensures short { result ≤ 128 }
    {
        self.0.len
    }

    // Its tags in the order in which they were added.
    pub fn tags(&self) -> &[Tag]
        ensures { result.now ≡ (sealed_outline self.now).tags }
    {
        self.0.tags.as_slice()
    }

    // The label may be sent over this text.
    pub fn matches(&self, text: &[u8]) -> bool
        ensures { result ≡ matches (sealed_outline self.now) text.now }
    {
        text.len() == self.len() && !has_control(text)
    }
}
