// What a line of the programme says. The parts are borrowed from the line.
#[derive(Clone, Copy, Debug, PartialEq, Eq)]
pub enum Entry<'a> {
    // Nothing to send.
    Nothing,
    // A gauge's reading: its time as it is written, and the depth in tenths of a metre.
    Reading { time: &'a [u8], tenths: u16 },
    Song { title: &'a [u8], artist: &'a [u8] },
    Announcement(&'a [u8]),
}
