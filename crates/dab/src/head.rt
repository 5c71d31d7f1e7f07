ghost use Rattle.std.specs.Prelude.{◌≡◌, ◌≤◌, ◌==◌};
ghost use Rattle.dab.specs.Frames.{tags_first};
ghost use Rattle.dab.specs.Taking.{high_four, item_bits, tag_count};

use label::tag::ItemBits;

const ITEM_TOGGLE: u8 = 8;

const ITEM_RUNNING: u8 = 4;

// The first data byte of a command.
#[derive(Clone, Copy)]
pub(crate) struct Head(pub(crate) u8);

impl Head {
    // The head of a command with so many tags.
    pub(crate) fn new(item: ItemBits, tags: usize) -> Head
        requires { (1 ≤ tags) × (tags ≤ 4) }
        ensures { result.0 ≡ tags_first item tags }
    {
        let toggle = item.toggle as u8 * ITEM_TOGGLE;
        let running = item.running as u8 * ITEM_RUNNING;
        Head(toggle + running + (tags as u8 - 1))
    }

    // The command is one with tags.
    pub(crate) fn has_tags(self) -> bool
        ensures { result ≡ (high_four self.0 == 0) }
    {
        self.0 / 16 == 0
    }

    pub(crate) fn item(self) -> ItemBits
        ensures { result ≡ item_bits self.0 }
    {
        ItemBits {
            toggle: self.0 / ITEM_TOGGLE % 2 == 1,
            running: self.0 / ITEM_RUNNING % 2 == 1,
        }
    }

    pub(crate) fn tag_count(self) -> usize
        ensures value { result ≡ tag_count self.0 }
        ensures few { result ≤ 4 }
    {
        (self.0 % 4) as usize + 1
    }
}
