ghost use Rattle.std.specs.Prelude.{◌≡◌};
ghost use Rattle.front.specs.Reading.{reading_of};

use crate::record::{Record, reading_of};

// What stands at the gate.
#[derive(Drop)]
pub struct Front {
    pub(crate) record: Record,
}

impl Front {
    // A front that has read nothing yet.
    pub fn new() -> Front
        ensures { result.«record» ≡ None }
    {
        Front { record: None }
    }

    // What it shows.
    pub fn record(&self) -> Record
        ensures { result ≡ self.now.«record» }
    {
        self.record
    }

    // Shows what it reads in a text.
    pub fn show(&mut self, text: &[u8])
        ensures { self.new.«record» ≡ reading_of text.now }
    {
        self.record = reading_of(text);
    }
}
