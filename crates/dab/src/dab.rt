use crate::segment::DabSegment;
use taking::held::Row;
use taking::taken::Taking;

// The DAB carrier.
#[derive(Drop)]
pub struct Dab {
    pub(crate) taking: Taking<Row<DabSegment, 8>>,
}
