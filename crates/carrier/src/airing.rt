use label::sealed::Sealed;
use label::tag::ItemBits;

// A label on the air: what all its frames are written from.
#[derive(Clone, Copy)]
pub struct Airing<'a> {
    pub label: &'a Sealed,
    pub text: &'a [u8],
    pub item: ItemBits,
    pub toggle: bool,
    pub service: u16,
}
