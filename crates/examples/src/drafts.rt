use crate::labels::{at, drafted};
use label::part::is_deletion;
use label::refusal::Refusal;
use label::sealed::Draft;
use label::tag::Tag;
use label::{draft, part};
use std::test::Fail;

// What opening a draft over a text answers, by the refusal's number.
fn opening(text: &[u8]) -> Result<(), u8> {
    Draft::open(text).map(drop).map_err(Refusal::number)
}

// What a draft over a text, with the earlier ones of these tags in, answers to the last.
fn tagging(text: &[u8], tags: &[Tag]) -> Result<Result<(), u8>, Fail> {
    let (last, earlier) = tags.split_last().ok_or("no tag")?;
    let mut draft = drafted(text, earlier).or(Err("an earlier tag is refused"))?;
    Ok(draft.tag(*last).map_err(Refusal::number))
}

#[test]
fn opening_is_refused(rt: HostRuntime) {
    assert_eq!(rt; opening(b""), Err(1));
    assert_eq!(rt; opening(&[0x41; 129]), Err(2));
    assert_eq!(rt; opening(&[0x0A; 129]), Err(2));
    assert_eq!(rt; opening(b"Sill\t2.4"), Err(3));
    assert_eq!(rt; opening(&[0x41; 128]), Ok(()));
}

#[test]
fn tags_of_ten_bytes(rt: HostRuntime) -> Result<(), Fail> {
    let text = b"Sill 2.4 m";
    assert_eq!(rt; tagging(text, &[at(56, 7, 2)])?, Ok(()));
    assert_eq!(rt; tagging(text, &[at(56, 8, 2)])?, Err(5));
    assert_eq!(rt; tagging(text, &[at(1, 0, 3), at(4, 4, 3)])?, Ok(()));
    assert_eq!(rt; tagging(text, &[at(1, 0, 4), at(4, 4, 3)])?, Err(6));
    assert_eq!(rt; tagging(text, &[at(54, 0, 0)])?, Err(4));
    assert_eq!(rt; tagging(text, &[at(56, 0, 0), at(56, 1, 0)])?, Err(7));
    assert_eq!(rt; tagging(text, &[at(59, 0, 0)])?, Err(8));
    Ok(())
}

#[test]
fn a_full_draft(rt: HostRuntime) -> Result<(), Fail> {
    let text = b"Sill 2.4 m";
    let four = [
        at(1, 0, 0),
        at(4, 1, 0),
        at(56, 2, 0),
        at(59, 3, 0),
        at(12, 4, 0),
    ];
    assert_eq!(rt; tagging(text, &four)?, Err(9));
    let silent = [
        at(1, 0, 0),
        at(4, 1, 0),
        at(56, 2, 0),
        at(59, 3, 0),
        at(0, 4, 0),
    ];
    assert_eq!(rt; tagging(text, &silent)?, Err(4));
    Ok(())
}

#[test]
fn deletions(rt: HostRuntime) -> Result<(), Fail> {
    let text = b"Hotline: 0123456677";
    assert!(rt; is_deletion(at(12, 8, 0).part(text).ok_or("no part")?));
    assert!(rt; !is_deletion(at(12, 8, 1).part(text).ok_or("no part")?));
    Ok(())
}
