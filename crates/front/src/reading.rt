ghost use Rattle.std.specs.Prelude.{◌≡◌};
ghost use Rattle.display.specs.View.{view};
ghost use Rattle.front.specs.Reading.{reading_of};

use crate::front::Front;
use carrier::carrier::Carrier;
use display::shown::Display;

// The class that carries the depth.
pub const DEPTH: u8 = 56;

impl Front {
    // Shows what it reads in the depth's class of a display.
    pub fn read<C: Carrier>(&mut self, display: &Display<C>)
        ensures { self.new.«record» ≡ reading_of ((view C.state display.now).table.row 56) }
    {
        let mut text = [0u8; 128];
        match display.read(DEPTH, &mut text) {
            Ok(n) => self.show(&text[0..n]),
            Err(_) => self.show(&[]),
        }
    }
}
