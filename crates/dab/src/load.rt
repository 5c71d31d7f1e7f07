ghost use Rattle.std.specs.Prelude.{◌≡◌, ◌-◌, ◌<◌, length};

use crate::filled::Filled;

// What a frame carries: one to sixteen data bytes.
pub(crate) type Load<'a> = Filled<'a, 16>;

impl Filled<'_, 16> {
    // The number of its bytes, less one: as a prefix says it.
    pub(crate) fn len_field(&self) -> u8
        ensures value { result ≡ length self.now.bytes.now - 1 }
        ensures small { result < 16 }
    {
        self.bytes.len() as u8 - 1
    }
}
