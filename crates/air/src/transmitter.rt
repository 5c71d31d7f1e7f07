use crate::not_sent::NotSent;
use crate::report::Report;
use carrier::airing::Airing;
use carrier::carrier::{Carrier, in_own_place};
use carrier::writing::PLACE;
use label::refusal::Refusal;
use label::sealed::{Draft, Sealed};
use label::tag::ItemBits;
use lines::form::{Form, Line};
use programme::composed::Composed;
use programme::line::read_line;
use programme::text::compose;
use std::alloc::Global;

// What is on the air: the service, and the message toggle of the next label.
#[derive(Drop)]
pub struct Transmitter {
    service: u16,
    toggle: bool,
    form: Form,
}

// A label that is ready to be sent, and what it was made of.
#[derive(Drop)]
struct Ready {
    composed: Composed,
    label: Sealed,
}

// A label with these tags, sealed.
fn label_of(composed: &Composed) -> Result<Sealed, Refusal> {
    let mut draft = Draft::open(composed.text.as_slice())?;
    for tag in composed.tags.as_slice() {
        draft.tag(*tag)?;
    }
    Ok(draft.seal())
}

// A line of the programme as a label that fits the carrier, where there is anything to send.
fn prepared<C: Carrier>(heap: Global, line: &[u8]) -> Result<Option<Ready>, NotSent> {
    let Some(composed) = compose(heap, read_line(line)?).transpose()? else {
        return Ok(None);
    };
    let label = label_of(&composed)?;
    if !C::fits(&label) {
        return Err(NotSent::Refused(Refusal::LabelDoesNotFit));
    }
    Ok(Some(Ready { composed, label }))
}

// The frame in its place, behind its length.
fn frame_in(place: &[u8]) -> Option<&[u8]> {
    let (length, bytes) = place.split_first()?;
    bytes.get(..usize::from(*length))
}

impl Transmitter {
    pub fn new(service: u16, form: Form) -> Transmitter {
        Transmitter {
            service,
            toggle: false,
            form,
        }
    }

    // Puts a line of the programme on the air.
    pub fn air<C: Carrier>(&mut self, line: &[u8], report: &Report) -> anyhow::Result<()> {
        match prepared::<C>(report.rt.alloc(), line) {
            Ok(Some(ready)) => self.send::<C>(&ready, report),
            Ok(None) => Ok(()),
            Err(why) => report.not_sent(why),
        }
    }

    fn send<C: Carrier>(&mut self, ready: &Ready, report: &Report) -> anyhow::Result<()> {
        let frames = C::count(&ready.label);
        report.sent(&ready.composed, self.toggle, frames)?;
        // frames are asked for by their number
        for number in 0..frames {
            match self.write::<C>(ready, number) {
                Ok(place) => self.print(place.as_slice(), report)?,
                Err(refusal) => report.no_frame(number, refusal)?,
            }
        }
        self.toggle = !self.toggle;
        Ok(())
    }

    // A frame in its place: its length, the frame, zeros. Both item bits are 0: no item is told of yet.
    fn write<C: Carrier>(&self, ready: &Ready, number: usize) -> Result<[u8; PLACE], Refusal> {
        let airing = Airing {
            label: &ready.label,
            text: ready.composed.text.as_slice(),
            item: ItemBits::default(),
            toggle: self.toggle,
            service: self.service,
        };
        in_own_place::<C>(&airing, number)
    }

    fn print(&self, place: &[u8], report: &Report) -> anyhow::Result<()> {
        match frame_in(place) {
            Some(frame) => report.frame(Line {
                form: self.form,
                frame,
            }),
            None => Ok(()),
        }
    }
}
