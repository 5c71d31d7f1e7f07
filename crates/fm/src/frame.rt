ghost use Rattle.std.specs.Prelude.{◌≡◌, true, ◌+◌, ◌*◌, ◌^◌, ◌<◌, ◌≤◌, ◌++◌, length, slice_index};
ghost use Rattle.label.specs.Drafts.{matches};
ghost use Rattle.carrier.specs.Aired.{outline, frame_of};
ghost use Rattle.fm.specs.Frames.{last_segment, closed, segment, block_1, block_2, text_frame, announcing_frame, first_tag, second_tag, sent_tags, tag_bits, tags_frame, fm_writing};

use crate::text::RETURN;
use carrier::airing::Airing;
use label::tag::{ItemBits, Tag};

// The types of the groups that are sent: texts, announcements, and our tags.
pub(crate) const TEXT: u8 = 2;

pub(crate) const ANNOUNCEMENT: u8 = 3;

const TAGS: u8 = 11;

// RT+, by the number under which applications are announced.
pub(crate) const APPLICATION: u16 = 0x4BD7;

// The number of the last text segment: there are up to 16, and room for a 0x0D behind a text below 64 bytes.
pub(crate) fn last_segment(len: usize) -> usize
    ensures { result ≡ last_segment len }
{
    (len / 4).min(15)
}

// A byte of the closed text.
fn closed_byte(text: &[u8], at: usize) -> u8
    requires { at < length (closed text.now) }
    ensures { result ≡ slice_index (closed text.now) at }
{
    match text.get(at) {
        Some(b) => *b,
        None if at == text.len() => RETURN,
        None => b' ',
    }
}

// The four bytes of a text segment. (One by one: a closure for from_fn would owe the bound of each.)
fn segment(text: &[u8], number: usize) -> [u8; 4]
    requires { 4 * number + 4 ≤ length (closed text.now) }
    ensures { result ≡ segment text.now number }
{
    let at = 4 * number;
    [
        closed_byte(text, at),
        closed_byte(text, at + 1),
        closed_byte(text, at + 2),
        closed_byte(text, at + 3),
    ]
}

// A frame of version A, by its service, group type, own bits and the bytes of blocks 3 and 4.
fn join(service: u16, group: u8, own: u8, bytes: [u8; 4]) -> [u8; 8]
    requires { group < 16 }
    ensures { result ≡ block_1 service ++ block_2 group own ++ bytes }
{
    let [high, low] = service.to_be_bytes();
    let [p, q, r, s] = bytes;
    [high, low, group * 16, own, p, q, r, s]
}

// A text segment's frame.
fn text_segment(airing: &Airing<'_>, number: usize) -> [u8; 8]
    requires few { number < 16 }
    requires inside { 4 * number + 4 ≤ length (closed airing.now.text.now) }
    ensures { result ≡ text_frame airing.now.text.now airing.now.toggle airing.now.service number }
{
    let own = u8::from(airing.toggle) * 16 + number as u8;
    join(airing.service, TEXT, own, segment(airing.text, number))
}

// The announcement of the tag group, 11A.
fn announcing(service: u16) -> [u8; 8]
    ensures { result ≡ announcing_frame service }
{
    let [high, low] = APPLICATION.to_be_bytes();
    join(service, ANNOUNCEMENT, TAGS * 2, [0, 0, high, low])
}

// The two tags as they are sent.
fn pair(tags: &[Tag]) -> (Tag, Tag)
    ensures first { result.0 ≡ first_tag (sent_tags tags.now) }
    ensures second { result.1 ≡ second_tag (sent_tags tags.now) }
{
    match tags {
        [] => (Tag::default(), Tag::default()),
        [t] => (*t, Tag::default()),
        [t, u, ..] if u.extent >= 32 => (*u, *t),
        [t, u, ..] => (*t, *u),
    }
}

// The 37 bits of a tag group. (As a sum, which holds for markers of any size; shifted bits would run into one another.)
fn pack(item: ItemBits, t: Tag, u: Tag) -> u64
    ensures value { result ≡ tag_bits item t u }
    ensures bound { result < 2 ^ 40 }
{
    let item = u64::from(item.toggle) * 2 + u64::from(item.running);
    let first = ((item * 64 + u64::from(t.class)) * 64 + u64::from(t.start)) * 64
        + u64::from(t.extent);
    ((first * 64 + u64::from(u.class)) * 64 + u64::from(u.start)) * 32 + u64::from(u.extent)
}

// The tag group's frame.
fn tags_group(airing: &Airing<'_>) -> [u8; 8]
    ensures { result ≡ tags_frame airing.now.item (outline airing.now).tags airing.now.service }
{
    let (t, u) = pair(airing.label.tags());
    let [_, _, _, own, p, q, r, s] = pack(airing.item, t, u).to_be_bytes();
    join(airing.service, TAGS, own, [p, q, r, s])
}

// A label's frame: text segments, then the announcement, then the tag group.
#[tactic(auto, unfolding(crate::specs::Frames::fm_frame))]
pub(crate) fn frame(airing: &Airing<'_>, number: usize) -> [u8; 8]
    requires fit { fm_writing.fits (outline airing.now) ≡ true }
    requires over { matches (outline airing.now) airing.now.text.now ≡ true }
    requires one { number < fm_writing.count (outline airing.now) }
    ensures { result ≡ frame_of fm_writing airing.now number }
{
    let last = last_segment(airing.text.len());
    if number <= last {
        text_segment(airing, number)
    } else if number == last + 1 {
        announcing(airing.service)
    } else {
        tags_group(airing)
    }
}
