ghost use Rattle.std.specs.Prelude.{◌≤◌};

use arrayvec::ArrayVec;
use carrier::answer::Answer;
use carrier::carrier::Carrier;
use dab::dab::Dab;
use fm::fm::Fm;
use label::refusal::Refusal;

// What taking a frame answers, by the answer's or the refusal's number.
fn taken<C: Carrier>(carrier: &mut C, frame: &[u8]) -> Result<u8, u8> {
    carrier
        .take(frame)
        .map(Answer::number)
        .map_err(Refusal::number)
}

// A text segment on FM, service 0x1234: block 2's own bits, and four bytes.
fn segment(own: u8, text: &[u8; 4]) -> [u8; 8] {
    let [a, b, c, d] = *text;
    [0x12, 0x34, 0x20, own % 32, a, b, c, d]
}

const LEARN: [u8; 8] = [0x12, 0x34, 0x30, 0x16, 0, 0, 0x4B, 0xD7];

// Class 56 at 5/2, as the tag group 11A carries it.
const TAGS: [u8; 8] = [0x12, 0x34, 0xB0, 0x07, 0x02, 0x84, 0x00, 0x00];

#[test]
fn in_order_on_fm(rt: HostRuntime) {
    let mut fm = Fm::new();
    assert!(rt; fm.standing().is_none());
    assert_eq!(rt; taken(&mut fm, &segment(0, b"Sill")), Ok(1));
    assert_eq!(rt; taken(&mut fm, &segment(1, b" 2.4")), Ok(1));
    assert_eq!(rt; taken(&mut fm, &segment(2, b" m\r ")), Ok(1));
    assert_eq!(rt; taken(&mut fm, &LEARN), Ok(1));
    assert!(rt; !fm.is_complete());
    assert_eq!(rt; taken(&mut fm, &TAGS), Ok(2));
    assert!(rt; fm.is_complete() && fm.text() == b"Sill 2.4 m".as_slice() && fm.tags().len() == 1);
    assert_eq!(rt; taken(&mut fm, &TAGS), Ok(3));
    assert_eq!(rt; taken(&mut fm, &segment(1, b" 2.4")), Ok(3));
    assert_eq!(rt; taken(&mut fm, &segment(5, b"away")), Ok(0));
    assert_eq!(rt; taken(&mut fm, &[0; 7]), Err(20));
    assert_eq!(rt;
        taken(&mut fm, &[0x12, 0x34, 0x30, 0x04, 0, 0, 0x4B, 0xD7]),
        Err(26)
    );
    assert_eq!(rt;
        taken(&mut fm, &[0x12, 0x34, 0xB0, 0x07, 0x04, 0x84, 0x00, 0x00]),
        Err(27)
    );
    assert_eq!(rt;
        taken(&mut fm, &[0x12, 0x34, 0xB0, 0x07, 0x02, 0x82, 0x00, 0x00]),
        Err(28)
    );
}

#[test]
fn out_of_order_on_fm(rt: HostRuntime) {
    let mut fm = Fm::new();
    assert_eq!(rt; taken(&mut fm, &segment(16, b"Sill")), Ok(1));
    assert_eq!(rt; taken(&mut fm, &LEARN), Ok(1));
    assert_eq!(rt; taken(&mut fm, &TAGS), Ok(1));
    assert_eq!(rt; taken(&mut fm, &segment(18, b" m\r ")), Ok(1));
    assert_eq!(rt; taken(&mut fm, &segment(18, b" m\r ")), Ok(1));
    assert_eq!(rt; taken(&mut fm, &segment(17, b" 2.4")), Ok(2));
    assert!(rt; fm.standing() == Some(true));
    // The other toggle forgets; so does a segment unlike the held one.
    assert_eq!(rt; taken(&mut fm, &segment(0, b"Sill")), Ok(1));
    assert!(rt; !fm.is_complete());
    assert_eq!(rt; taken(&mut fm, &segment(0, b"Silt")), Ok(1));
}

#[test]
fn waiting_tags_on_fm(rt: HostRuntime) {
    let mut fm = Fm::new();
    assert_eq!(rt; taken(&mut fm, &TAGS), Ok(0));
    assert_eq!(rt; taken(&mut fm, &LEARN), Ok(1));
    assert_eq!(rt; taken(&mut fm, &TAGS), Ok(1));
    // Unknown counts as different: the tags are forgotten with the first segment.
    assert_eq!(rt; taken(&mut fm, &segment(0, b"Tide")), Ok(1));
    assert_eq!(rt; taken(&mut fm, &TAGS), Ok(1));
    assert_eq!(rt; taken(&mut fm, &segment(1, b"\r   ")), Ok(4));
    assert_eq!(rt; taken(&mut fm, &TAGS), Err(27));
    // A changed A/B flag drops waiting tags, and the group is forgotten by the flag in block 3.
    assert_eq!(rt; taken(&mut fm, &segment(16, b"Sill")), Ok(1));
    assert_eq!(rt; taken(&mut fm, &TAGS), Ok(1));
    assert_eq!(rt; taken(&mut fm, &segment(0, b"Sill")), Ok(1));
    assert_eq!(rt; taken(&mut fm, &segment(1, b" 2.4")), Ok(1));
    assert_eq!(rt; taken(&mut fm, &segment(2, b" m\r ")), Ok(1));
    assert!(rt; !fm.is_complete());
    assert_eq!(rt;
        taken(&mut fm, &[0x12, 0x34, 0x30, 0x16, 0x20, 0, 0x4B, 0xD7]),
        Ok(1)
    );
    assert_eq!(rt; taken(&mut fm, &TAGS), Ok(0));
}

const TEXT: [u8; 14] = [
    0x69, 0x00, 0x53, 0x69, 0x6C, 0x6C, 0x20, 0x32, 0x2E, 0x34, 0x20, 0x6D, 0x8A, 0x06,
];

const COMMAND: [u8; 8] = [0x72, 0x03, 0x00, 0x38, 0x05, 0x02, 0x62, 0x52];

#[test]
fn in_order_on_dab(rt: HostRuntime) {
    let mut dab = Dab::new();
    assert_eq!(rt; taken(&mut dab, &TEXT), Ok(1));
    assert_eq!(rt; taken(&mut dab, &COMMAND), Ok(2));
    assert!(rt; dab.text() == b"Sill 2.4 m".as_slice() && dab.tags().len() == 1);
    assert_eq!(rt; taken(&mut dab, &TEXT), Ok(3));
    assert_eq!(rt; taken(&mut dab, &COMMAND), Ok(3));
    assert_eq!(rt; taken(&mut dab, &[0; 4]), Err(20));
    assert_eq!(rt; taken(&mut dab, &[0; 21]), Err(20));
    assert_eq!(rt;
        taken(&mut dab, &[0x72, 0x03, 0x00, 0x38, 0x05, 0x02, 0x62, 0x53]),
        Err(21)
    );
    assert_eq!(rt; taken(&mut dab, &checked(&[0x6A, 0x00, 0x53])), Err(22));
    assert_eq!(rt; taken(&mut dab, &checked(&[0x60, 0x10, 0x53])), Err(23));
    assert_eq!(rt; taken(&mut dab, &checked(&[0x20, 0x00, 0x53])), Err(24));
    assert_eq!(rt; taken(&mut dab, &checked(&[0x52, 0x00, 0x00])), Err(25));
    assert_eq!(rt; taken(&mut dab, &checked(&[0x72, 0x00, 0x10])), Ok(0));
}

// Bytes of a frame with their check behind them.
fn checked<const N: usize>(body: &[u8; N]) -> ArrayVec<u8, 8>
    requires { N ≤ 6 }
{
    let mut frame = ArrayVec::new();
    frame.try_extend_from_slice(body).unwrap();
    frame
        .try_extend_from_slice(&crc::check(body).to_be_bytes())
        .unwrap();
    frame
}

// A command with one tag, with its check.
fn tagged(second: u8, class: u8, start: u8, extent: u8) -> ArrayVec<u8, 8> {
    checked(&[0x72, second, 0x00, class, start, extent])
}

#[test]
fn out_of_order_on_dab(rt: HostRuntime) {
    let mut dab = Dab::new();
    assert_eq!(rt; taken(&mut dab, &COMMAND), Ok(1));
    assert_eq!(rt; taken(&mut dab, &TEXT), Ok(2));
    assert_eq!(rt; taken(&mut dab, &tagged(0x03, 56, 5, 9)), Err(27));
    assert_eq!(rt; taken(&mut dab, &tagged(0x03, 56, 5, 1)), Err(28));
    // The other toggle forgets, and its tags wait; they prove unlawful for a text of one byte.
    assert_eq!(rt; taken(&mut dab, &tagged(0x83, 56, 5, 2)), Ok(1));
    assert!(rt; !dab.is_complete() && dab.standing() == Some(true));
    assert_eq!(rt; taken(&mut dab, &checked(&[0xE0, 0x00, 0x53])), Ok(4));
    // A segment behind the held last is the first of a new text.
    assert_eq!(rt; taken(&mut dab, &checked(&[0x80, 0x10, 0x53])), Ok(1));
}
