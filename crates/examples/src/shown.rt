use crate::harbour::Harbour;
use crate::labels::at;
use carrier::carrier::Carrier;
use dab::dab::Dab;
use fm::fm::Fm;
use std::process::Abort;

const SONG: &[u8; 17] = b"Low Tide by Pilot";

// The song's title and artist are heard and held.
fn sung<C: Carrier + Drop>(rt: &impl Abort) -> Harbour<C> {
    let mut harbour = Harbour::new();
    assert_eq!(rt; harbour.start(), Ok(()));
    assert_eq!(rt; harbour.air(SONG, &[at(1, 0, 7), at(4, 12, 4)]), Ok(1));
    harbour
}

// A Title deletion on one label with a new artist leaves that artist, though its tag comes first.
fn deletion_beside<C: Carrier + Drop>(rt: &impl Abort) {
    let mut harbour = sung::<C>(rt);
    assert!(rt; harbour.holds(1, b"Low Tide") && harbour.holds(4, b"Pilot"));
    assert_eq!(rt; harbour.air(b" Sailor", &[at(4, 1, 5), at(1, 0, 0)]), Ok(1));
    assert!(rt; harbour.holds(1, b"") && harbour.holds(4, b"Sailor"));
}

// A Title deletion alone empties all of Item, and nothing else.
fn deletion_alone<C: Carrier + Drop>(rt: &impl Abort) {
    let mut harbour = sung::<C>(rt);
    assert_eq!(rt; harbour.air(b"Sill 2.4 m", &[at(56, 5, 2)]), Ok(1));
    assert_eq!(rt; harbour.air(b" -", &[at(1, 0, 0)]), Ok(1));
    assert!(rt; harbour.holds(1, b"") && harbour.holds(4, b"") && harbour.holds(56, b"2.4"));
}

// The next item, and an item's end, empty Item; starts and ends are refused as they must be.
fn items<C: Carrier + Drop>(rt: &impl Abort) {
    let mut harbour = sung::<C>(rt);
    assert_eq!(rt; harbour.start(), Ok(()));
    assert_eq!(rt; harbour.start(), Err(10));
    assert_eq!(rt; harbour.air(b"Sailor", &[at(4, 0, 5)]), Ok(1));
    assert!(rt; harbour.holds(1, b"") && harbour.holds(4, b"Sailor"));
    assert_eq!(rt; harbour.end(), Ok(()));
    assert_eq!(rt; harbour.end(), Err(11));
    assert_eq!(rt; harbour.air(b"Sill 2.4 m", &[at(56, 5, 2)]), Ok(1));
    assert!(rt; harbour.holds(4, b"") && harbour.holds(56, b"2.4"));
    assert_eq!(rt; harbour.reading(54, &mut [0; 128]), Err(30));
    assert_eq!(rt; harbour.reading(56, &mut [0; 2]), Err(31));
    harbour.retune();
    assert!(rt; harbour.holds(56, b""));
}

fn on<C: Carrier + Drop>(rt: &impl Abort) {
    deletion_beside::<C>(rt);
    deletion_alone::<C>(rt);
    items::<C>(rt);
}

#[test]
fn on_fm(rt: HostRuntime) {
    on::<Fm>(&rt);
}

#[test]
fn on_dab(rt: HostRuntime) {
    on::<Dab>(&rt);
}

// FM: tags that waited for the old text do not cut the new one.
#[test]
fn old_markers_on_fm(rt: HostRuntime) {
    let mut harbour = Harbour::<Fm>::new();
    assert_eq!(rt; harbour.send(b"Sill 2.4 m", &[at(56, 5, 2)]), Ok(5));
    assert_eq!(rt; harbour.hear_all(&[0, 3, 4]), 0);
    assert_eq!(rt; harbour.send(b"The fuel berth is open", &[]), Ok(8));
    assert_eq!(rt; harbour.hear_all(&[0, 1, 2, 3, 4, 5]), 0);
    assert!(rt; harbour.holds(56, b""));
    assert_eq!(rt; harbour.hear_all(&[6, 7]), 1);
    assert!(rt; harbour.holds(56, b""));
}

// DAB: the same, by the message toggle of a text segment.
#[test]
fn old_markers_on_dab(rt: HostRuntime) {
    let mut harbour = Harbour::<Dab>::new();
    assert_eq!(rt;
        harbour.send(b"Here at the gate: sill 2.4 m", &[at(56, 23, 2)]),
        Ok(3)
    );
    assert_eq!(rt; harbour.hear_all(&[0, 2]), 0);
    assert_eq!(rt;
        harbour.send(b"The fuel berth is open till ten", &[]),
        Ok(3)
    );
    assert_eq!(rt; harbour.hear_all(&[0, 1]), 0);
    assert_eq!(rt; harbour.hear_all(&[2, 0, 1, 2]), 1);
    assert!(rt; harbour.holds(56, b""));
}

// Frames lost, doubled and out of order: what is held is whole, and a lost tag frame leaves the old reading.
#[test]
fn losses(rt: HostRuntime) {
    let mut fm = Harbour::<Fm>::new();
    let mut dab = Harbour::<Dab>::new();
    assert_eq!(rt; fm.send(b"Sill 2.4 m", &[at(56, 5, 2)]), Ok(5));
    assert_eq!(rt; dab.send(b"Sill 2.4 m", &[at(56, 5, 2)]), Ok(2));
    assert_eq!(rt; fm.hear_all(&[0, 2, 2, 3, 4, 4, 0, 1, 1, 4, 0]), 1);
    assert_eq!(rt; dab.hear_all(&[0, 0, 1, 1, 0]), 1);
    assert!(rt; fm.holds(56, b"2.4") && dab.holds(56, b"2.4"));
    assert_eq!(rt; fm.send(b"Sill 2.6 m", &[at(56, 5, 2)]), Ok(5));
    assert_eq!(rt; dab.send(b"Sill 2.6 m", &[at(56, 5, 2)]), Ok(2));
    assert_eq!(rt; fm.hear_all(&[0, 2, 3, 4]), 0);
    assert_eq!(rt; dab.hear_all(&[0, 0]), 0);
    assert!(rt; fm.holds(56, b"2.4") && dab.holds(56, b"2.4"));
    assert_eq!(rt; fm.hear_all(&[1]), 1);
    assert_eq!(rt; dab.hear_all(&[1]), 1);
    assert!(rt; fm.holds(56, b"2.6") && dab.holds(56, b"2.6"));
}
