ghost use Rattle.std.specs.Prelude.{◌≡◌};
ghost use Rattle.label.specs.Refusals.{case_of};

// Why a call was refused, with the number by which users know the refusal. A refused call changes nothing.
#[derive(Clone, Copy, Debug, PartialEq, Eq)]
pub enum Refusal {
    NoText = 1,
    TextTooLong = 2,
    ControlByte = 3,
    SilentClass = 4,
    PartLeavesText = 5,
    SharedPosition = 6,
    ClassAlreadyIn = 7,
    LoneDescriptor = 8,
    FourTagsIn = 9,
    ItemStarted = 10,
    NoItemRuns = 11,
    LabelDoesNotFit = 12,
    OtherText = 13,
    SmallBuffer = 14,
    NoSuchFrame = 15,
    WrongSize = 20,
    WrongCheck = 21,
    WrongLength = 22,
    OtherCharset = 23,
    LaterSegmentZero = 24,
    WrongCommand = 25,
    UnusableGroup = 26,
    TagsUnlawful = 27,
    TagsUnlike = 28,
    UnreadableClass = 30,
    ShortBuffer = 31,
}

impl Refusal {
    // (A method and no From: u8::from would not say which number it is.)
    pub fn number(self) -> u8
        ensures { result ≡ (case_of self).number }
    {
        self as u8
    }
}
