ghost use Rattle.std.specs.Prelude.{◌≡◌, Some};
ghost use Rattle.programme.specs.Faults.{message_of};
ghost use Rattle.programme.specs.declared.fault.Fault.TheVariants.{NoMemory};

use std::alloc::AllocError;
use std::error::Error;
use std::fmt;

// Why a line is refused, or no label can be made of it.
#[derive(Clone, Copy, PartialEq, Eq, Debug)]
pub enum Fault {
    NoTime,
    NoDepth,
    BelowZero,
    TooDeep,
    NoSong,
    NothingToSay,
    Unknown,
    TooLong,
    NoMemory,
}

impl Fault {
    // What to tell whoever wrote the line.
    pub fn message(self) -> &'static str
        ensures { result.now ≡ message_of self }
    {
        match self {
            Fault::NoTime => "no time such as 06:00",
            Fault::NoDepth => "the depth is no number",
            Fault::BelowZero => "the depth is below zero",
            Fault::TooDeep => "the depth is 100 metres or more",
            Fault::NoSong => "a song needs a title and an artist: song TITLE / ARTIST",
            Fault::NothingToSay => "nothing to say",
            Fault::Unknown => "neither a gauge reading, a song nor an announcement",
            Fault::TooLong => "too long for a label",
            Fault::NoMemory => "no memory for the label",
        }
    }
}

impl fmt::Display for Fault {
    ghost output = { λ fault. Some (message_of fault) };

    fn fmt<W: fmt::Write>(&self, f: &mut fmt::Formatter<W>) -> fmt::Result {
        f.write_str(self.message())
    }
}

impl Error for Fault {}

impl From<AllocError> for Fault {
    ghost from_gives = { λ _ r. r ≡ NoMemory };

    fn from(_error: AllocError) -> Fault {
        Self::NoMemory
    }
}
