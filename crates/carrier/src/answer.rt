ghost use Rattle.std.specs.Prelude.{◌≡◌};
ghost use Rattle.carrier.specs.Answers.{answer_case};

// What taking a frame answers, with the number by which users know the answer.
#[derive(Clone, Copy, Debug, PartialEq, Eq)]
pub enum Answer {
    PassedOver = 0,
    Kept = 1,
    Complete = 2,
    Again = 3,
    Dropped = 4,
}

impl Answer {
    // (A method and no From: u8::from would not say which number it is.)
    pub fn number(self) -> u8
        ensures { result ≡ (answer_case self).number }
    {
        self as u8
    }
}
