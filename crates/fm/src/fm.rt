use crate::text::FmText;
use taking::taken::Taking;

// The FM carrier's taking side: what all carriers share, and the tag group that was learnt.
#[derive(Drop)]
pub struct Fm {
    pub(crate) taking: Taking<FmText>,
    pub(crate) group: Option<u8>,
}
