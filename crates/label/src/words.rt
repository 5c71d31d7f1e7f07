ghost use Rattle.std.specs.Prelude.{◌≡◌, Some};
ghost use Rattle.label.specs.Words.{words_of};

use crate::refusal::Refusal;
use std::error::Error;
use std::fmt;

impl Refusal {
    // Why a call was refused, in words.
    pub fn words(self) -> &'static str
        ensures { result.now ≡ words_of self }
    {
        match self {
            Refusal::NoText => "there is no text",
            Refusal::TextTooLong => "the text has more than 128 bytes",
            Refusal::ControlByte => "the text has a byte below 0x20",
            Refusal::SilentClass => "a tag's class marks nothing",
            Refusal::PartLeavesText => "a tag's part leaves the text",
            Refusal::SharedPosition => "two tags' parts share a position",
            Refusal::ClassAlreadyIn => "two tags have one class",
            Refusal::LoneDescriptor => "a descriptor has no tag of another category beside it",
            Refusal::FourTagsIn => "the label has four tags already",
            Refusal::ItemStarted => "an item was started since the last label",
            Refusal::NoItemRuns => "no item runs",
            Refusal::LabelDoesNotFit => "the label does not fit this carrier",
            Refusal::OtherText => "the text is not the one that the label was made for",
            Refusal::SmallBuffer => "the buffer is too small",
            Refusal::NoSuchFrame => "the label has no frame of this number",
            Refusal::WrongSize => "no frame of this carrier has so many bytes",
            Refusal::WrongCheck => "the check bytes are wrong",
            Refusal::WrongLength => "the length field is wrong",
            Refusal::OtherCharset => "the text is in another character set",
            Refusal::LaterSegmentZero => "a later segment has the number 0",
            Refusal::WrongCommand => "the command with the tags is malformed",
            Refusal::UnusableGroup => "the announced group cannot carry tags",
            Refusal::TagsUnlawful => "the tags are unlawful for the text",
            Refusal::TagsUnlike => "the tags or item bits are not those of the complete label",
            Refusal::UnreadableClass => "the class marks nothing, so nothing is held for it",
            Refusal::ShortBuffer => "the buffer is shorter than the text",
        }
    }
}

impl fmt::Display for Refusal {
    ghost output = { λ refusal. Some (words_of refusal) };

    fn fmt<W: fmt::Write>(&self, f: &mut fmt::Formatter<W>) -> fmt::Result {
        f.write_str(self.words())
    }
}

impl Error for Refusal {}
