// Tags and labels, in as many words as the tests need.
use label::draft;
use label::refusal::Refusal;
use label::sealed::{Draft, Sealed};
use label::tag::Tag;

pub(crate) fn at(class: u8, start: u8, extent: u8) -> Tag {
    Tag {
        class,
        start,
        extent,
    }
}

// A draft over a text, with these tags.
pub(crate) fn drafted(text: &[u8], tags: &[Tag]) -> Result<Draft, Refusal> {
    let mut draft = Draft::open(text)?;
    for tag in tags {
        draft.tag(*tag)?;
    }
    Ok(draft)
}

pub(crate) fn sealed(text: &[u8], tags: &[Tag]) -> Result<Sealed, Refusal> {
    Ok(drafted(text, tags)?.seal())
}
