use crate::Past;
use std::array;
use std::test::Fail;

// The entries, newest first, and zeros behind them.
fn held(list: &Past<'_, u8>) -> [u8; 4] {
    array::from_fn(|i| list.newest(i).copied().unwrap_or(0))
}

#[test]
fn no_place(rt: HostRuntime) {
    let mut places = [0; 0];
    let mut list = Past::new(&mut places);
    list.add(1);
    assert_eq!(rt; held(&list), [0, 0, 0, 0]);
}

#[test]
fn one_place(rt: HostRuntime) {
    let mut places = [9; 1];
    let list = Past::of(&mut places, &[1, 2]);
    assert_eq!(rt; held(&list), [2, 0, 0, 0]);
}

// Three places: not yet full, and gone round twice.
#[test]
fn goes_round(rt: HostRuntime) {
    let mut places = [9; 3];
    let mut list = Past::of(&mut places, &[1, 2]);
    assert_eq!(rt; held(&list), [2, 1, 0, 0]);
    list.add_all(&[3, 4, 5, 6, 7, 8]);
    assert_eq!(rt; held(&list), [8, 7, 6, 0]);
    assert_eq!(rt; list.len(), 3);
}

// Entries that own memory: the one that goes is dropped.
#[test]
fn songs(rt: HostRuntime) -> Result<(), Fail> {
    let mut places = [String::new(rt.alloc())];
    let mut list = Past::new(&mut places);
    list.add(String::from_str(rt.alloc(), "Silver Tide")?);
    list.add(String::from_str(rt.alloc(), "Low Water")?);
    let Some(song) = list.newest(0) else {
        return Err(Fail::new("no song"));
    };
    assert_eq!(rt; song.as_str(), "Low Water");
    Ok(())
}
