ghost use Rattle.std.specs.Prelude.{◌≡◌, ◌<◌, ◌≤◌, ◌==◌};
ghost use Rattle.taking.specs.Rows.{piece_meant};
ghost use Rattle.taking.specs.Views.{tags_of};
ghost use Rattle.fm.specs.Taking.{announces, ert_flag, group_of, own_bits, read_bits, text_piece, text_toggle, unpacked, usable, version_of};
ghost use Rattle.fm.specs.Blocks.{Holds, announced, tag_below};
ghost use Rattle.fm.specs.Views.{fm_segment};

use crate::frame::{ANNOUNCEMENT, APPLICATION};
use crate::text::{FmPiece, FmSegment};
use label::refusal::Refusal;
use label::tag::{ItemBits, Tag};
use taking::arrived::Arrived;
use taking::held::Piece;

// A frame that arrives: four blocks, of two bytes each.
#[derive(Clone, Copy)]
pub(crate) struct Blocks([u8; 8]);

impl TryFrom<&[u8]> for Blocks {
    type Error = Refusal;

    ghost try_from_gives = { λ frame r. Holds frame.now r };

    fn try_from(frame: &[u8]) -> Result<Blocks, Refusal> {
        <[u8; 8]>::try_from(frame)
            .map(Blocks)
            .map_err(|_| Refusal::WrongSize)
    }
}

// A group that may carry tags.
fn is_usable(group: u8) -> bool
    ensures { result ≡ usable group }
{
    matches!(group, 5..=9 | 11..=13)
}

// The tag in the low bits: its length marker, of so many values, its start marker, its class.
fn low_tag(bits: u64, extents: u64) -> Tag
    requires some { 0 < extents }
    requires few { extents ≤ 64 }
    ensures { result ≡ tag_below bits extents }
{
    Tag {
        class: (bits / extents / 64 % 64) as u8,
        start: (bits / extents % 64) as u8,
        extent: (bits % extents) as u8,
    }
}

impl Blocks {
    // The group type.
    pub(crate) fn group(&self) -> u8
        ensures { result ≡ group_of self.now.0 }
    {
        self.0[2] / 16
    }

    pub(crate) fn is_version_a(&self) -> bool
        ensures { result ≡ (version_of self.now.0 == 0) }
    {
        self.0[2] / 8 % 2 == 0
    }

    fn own(&self) -> u8
        ensures { result ≡ own_bits self.now.0 }
    {
        self.0[3] % 32
    }

    // The message toggle of a text segment.
    pub(crate) fn toggle(&self) -> bool
        ensures { result ≡ text_toggle self.now.0 }
    {
        self.own() / 16 == 1
    }

    // The frame announces RT+.
    pub(crate) fn is_announcement(&self) -> bool
        ensures { result ≡ announces self.now.0 }
    {
        let [_, _, _, _, _, _, high, low] = self.0;
        self.group() == ANNOUNCEMENT && u16::from_be_bytes([high, low]) == APPLICATION
    }

    // An announcement with the flag of eRT.
    pub(crate) fn is_ert(&self) -> bool
        ensures { result ≡ ert_flag self.now.0 }
    {
        self.0[4] / 32 % 2 == 1
    }

    // The tag group that is announced.
    pub(crate) fn announced(&self) -> Result<u8, Refusal>
        ensures { result ≡ announced self.now.0 }
    {
        let own = self.own();
        if own % 2 == 0 && is_usable(own / 2) {
            Ok(own / 2)
        } else {
            Err(Refusal::UnusableGroup)
        }
    }

    // The piece of a text that a text segment brings.
    pub(crate) fn piece(&self) -> FmPiece
        ensures { piece_meant fm_segment result ≡ text_piece self.now.0 }
    {
        let [_, _, _, _, p, q, r, s] = self.0;
        Piece {
            number: (self.own() % 16) as usize,
            segment: FmSegment([p, q, r, s]),
        }
    }

    // The 37 bits of a tag group.
    fn bits(&self) -> u64
        ensures { result ≡ read_bits self.now.0 }
    {
        let [_, _, _, _, p, q, r, s] = self.0;
        u64::from_be_bytes([0, 0, 0, self.own(), p, q, r, s])
    }

    // The tags that a tag group brings.
    pub(crate) fn tags(&self) -> Arrived
        ensures { tags_of result ≡ unpacked (read_bits self.now.0) }
    {
        let bits = self.bits();
        let second = low_tag(bits, 32);
        let bits = bits / 32 / 64 / 64;
        let first = low_tag(bits, 64);
        let bits = bits / 64 / 64 / 64;
        let item = ItemBits {
            toggle: bits / 2 % 2 == 1,
            running: bits % 2 == 1,
        };
        Arrived::new(item, [first, second, second, second], 2)
    }
}
