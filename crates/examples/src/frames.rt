use crate::labels::{at, sealed};
use carrier::airing::Airing;
use carrier::carrier::Carrier;
use dab::dab::Dab;
use fm::fm::Fm;
use label::refusal::Refusal;
use label::sealed::Sealed;
use label::tag::ItemBits;

const SILL: &[u8; 10] = b"Sill 2.4 m";

const SONG: &[u8; 61] = b"You are listening to \"House of the rising sun\" by Eric Burdon";

// A label outside any item, with message toggle 0.
fn airing<'a>(label: &'a Sealed, text: &'a [u8], service: u16) -> Airing<'a> {
    Airing {
        label,
        text,
        item: ItemBits::default(),
        toggle: false,
        service,
    }
}

// A frame of the sill's label, in the place that is the first 21 of these bytes.
fn written<C: Carrier>(number: usize) -> Result<[u8; 22], u8> {
    let label = sealed(SILL, &[at(56, 5, 2)]).map_err(Refusal::number)?;
    let mut place = [0xEE; 22];
    C::write(&airing(&label, SILL, 0x1234), number, &mut place).map_err(Refusal::number)?;
    Ok(place)
}

// The eight bytes of an FM frame as they are written.
fn place(frame: [u8; 8]) -> [u8; 22] {
    let mut place = [0; 22];
    place[0] = 8;
    place[1..9].copy_from_slice(&frame);
    place[21] = 0xEE;
    place
}

#[test]
fn the_sill_on_fm(rt: HostRuntime) {
    assert_eq!(rt;
        written::<Fm>(0),
        Ok(place([0x12, 0x34, 0x20, 0x00, 0x53, 0x69, 0x6C, 0x6C]))
    );
    assert_eq!(rt;
        written::<Fm>(1),
        Ok(place([0x12, 0x34, 0x20, 0x01, 0x20, 0x32, 0x2E, 0x34]))
    );
    assert_eq!(rt;
        written::<Fm>(2),
        Ok(place([0x12, 0x34, 0x20, 0x02, 0x20, 0x6D, 0x0D, 0x20]))
    );
    assert_eq!(rt;
        written::<Fm>(3),
        Ok(place([0x12, 0x34, 0x30, 0x16, 0x00, 0x00, 0x4B, 0xD7]))
    );
    assert_eq!(rt;
        written::<Fm>(4),
        Ok(place([0x12, 0x34, 0xB0, 0x07, 0x02, 0x84, 0x00, 0x00]))
    );
    assert_eq!(rt; written::<Fm>(5), Err(15));
}

#[test]
fn the_sill_on_dab(rt: HostRuntime) {
    let text = [
        14, 0x69, 0x00, 0x53, 0x69, 0x6C, 0x6C, 0x20, 0x32, 0x2E, 0x34, 0x20, 0x6D, 0x8A, 0x06, 0,
        0, 0, 0, 0, 0, 0xEE,
    ];
    let command = [
        8, 0x72, 0x03, 0x00, 0x38, 0x05, 0x02, 0x62, 0x52, 0, 0, 0, 0, 0, 0, 0, 0, 0, 0, 0, 0, 0xEE,
    ];
    assert_eq!(rt; written::<Dab>(0), Ok(text));
    assert_eq!(rt; written::<Dab>(1), Ok(command));
    assert_eq!(rt; written::<Dab>(2), Err(15));
}

// How many frames a label over a text has on FM, where it fits.
fn frames_of(text: &[u8]) -> Option<usize> {
    let label = sealed(text, &[]).ok()?;
    Fm::fits(&label).then(|| Fm::count(&label))
}

#[test]
fn how_many_on_fm(rt: HostRuntime) {
    assert_eq!(rt; frames_of(&[0x41; 60]), Some(18));
    assert_eq!(rt; frames_of(&[0x41; 63]), Some(18));
    assert_eq!(rt; frames_of(&[0x41; 64]), Some(18));
    assert_eq!(rt; frames_of(&[0x41; 65]), None);
}

// The song's frames on FM and on DAB.
fn song_frames() -> Option<(usize, usize)> {
    let label = sealed(SONG, &[at(1, 22, 22), at(4, 50, 10)]).ok()?;
    Some((Fm::count(&label), Dab::count(&label)))
}

#[test]
fn the_song_on_both(rt: HostRuntime) {
    assert_eq!(rt; song_frames(), Some((18, 5)));
}

// What writing a frame of a label over this text answers, with another handed in, by the refusal's number.
fn writing(text: &[u8], over: &[u8], number: usize, space: &mut [u8]) -> Result<(), u8> {
    let label = sealed(text, &[]).map_err(Refusal::number)?;
    Fm::write(&airing(&label, over, 0), number, space).map_err(Refusal::number)
}

#[test]
fn writing_is_refused(rt: HostRuntime) {
    assert_eq!(rt; writing(&[0x41; 65], b"", 99, &mut []), Err(12));
    assert_eq!(rt; writing(SILL, b"Sill 2.4", 99, &mut []), Err(13));
    assert_eq!(rt; writing(SILL, b"Sill\n2.4 m", 99, &mut []), Err(13));
    assert_eq!(rt; writing(SILL, SILL, 99, &mut [0xEE; 20]), Err(14));
    assert_eq!(rt; writing(SILL, SILL, 5, &mut [0xEE; 21]), Err(15));
    assert_eq!(rt; writing(SILL, SILL, 4, &mut [0xEE; 21]), Ok(()));
}
