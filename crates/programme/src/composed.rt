use label::tag::Tag;

// A label's text, and the tags that mark parts of it.
#[derive(Drop)]
pub struct Composed {
    pub text: Vec<u8>,
    pub tags: Vec<Tag>,
}
