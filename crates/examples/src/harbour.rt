// A station and the display that hears it, on any carrier.
use crate::labels::sealed;
use carrier::answer::Answer;
use carrier::carrier::Carrier;
use carrier::writing::PLACE;
use display::shown::Display;
use label::refusal::Refusal;
use label::tag::Tag;
use station::station::Station;

// Room for the places of 20 frames.
const AIR: usize = 20 * PLACE;

#[derive(Drop)]
pub(crate) struct Harbour<C> {
    station: Station<C>,
    display: Display<C>,
    air: [u8; AIR],
}

// The frame in its place.
fn frame_in(air: &[u8], number: usize) -> Option<&[u8]> {
    let (length, place) = air.chunks(PLACE).nth(number)?.split_first()?;
    place.get(..usize::from(*length))
}

impl<C: Carrier + Drop> Harbour<C> {
    pub(crate) fn new() -> Harbour<C> {
        Harbour {
            station: Station::new(0x1234),
            display: Display::new(),
            air: [0; AIR],
        }
    }

    pub(crate) fn start(&mut self) -> Result<(), u8> {
        self.station.start_item().map_err(Refusal::number)
    }

    pub(crate) fn end(&mut self) -> Result<(), u8> {
        self.station.end_item().map_err(Refusal::number)
    }

    // Sends a label, and says how many frames it has.
    pub(crate) fn send(&mut self, text: &[u8], tags: &[Tag]) -> Result<usize, Refusal> {
        let label = sealed(text, tags)?;
        self.station.send(&label, text, &mut self.air)
    }

    // The display hears one of the frames, and a label is complete with it.
    fn completes(&mut self, number: usize) -> bool {
        let Some(frame) = frame_in(&self.air, number) else {
            return false;
        };
        self.display.take(frame) == Ok(Answer::Complete)
    }

    // The display hears frames in this order, and says how often a label was complete.
    pub(crate) fn hear_all(&mut self, numbers: &[usize]) -> usize {
        numbers
            .iter()
            .filter(|number| self.completes(**number))
            .count()
    }

    // Sends a label, and the display hears all of it in order.
    pub(crate) fn air(&mut self, text: &[u8], tags: &[Tag]) -> Result<usize, Refusal> {
        let count = self.send(text, tags)?;
        Ok((0..count).filter(|number| self.completes(*number)).count())
    }

    // What reading a class answers, by the refusal's number.
    pub(crate) fn reading(&self, class: u8, held: &mut [u8]) -> Result<usize, u8> {
        self.display.read(class, held).map_err(Refusal::number)
    }

    // The class holds just this text.
    pub(crate) fn holds(&self, class: u8, text: &[u8]) -> bool {
        let mut held = [0; 128];
        self.reading(class, &mut held)
            .is_ok_and(|length| held.get(..length) == Some(text))
    }

    pub(crate) fn retune(&mut self) {
        self.display.retune();
    }
}
