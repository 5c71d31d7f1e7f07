ghost use Rattle.std.specs.Prelude.{◌≡◌};
ghost use Rattle.carrier.specs.Meaning.{told_text, told_tags, told_item};
ghost use Rattle.display.specs.View.{view};

use crate::shown::Display;
use carrier::carrier::Carrier;
use label::tag::{ItemBits, Tag};

// The complete label, as the carrier tells it.
impl<C: Carrier> Display<C> {
    // Its text, or nothing.
    pub fn label_text(&self) -> &[u8]
        ensures { result.now ≡ told_text (C.meaning.told (view C.state self.now).carrier) }
    {
        self.carrier.text()
    }

    // Its tags, or none.
    pub fn label_tags(&self) -> &[Tag]
        ensures { result.now ≡ told_tags (C.meaning.told (view C.state self.now).carrier) }
    {
        self.carrier.tags()
    }

    // Its item bits, or zeros.
    pub fn label_item(&self) -> ItemBits
        ensures { result ≡ told_item (C.meaning.told (view C.state self.now).carrier) }
    {
        self.carrier.item()
    }
}
