ghost use Rattle.std.specs.Prelude.{◌≡◌, ◌*◌, ◌++◌, length, drop};
ghost use Rattle.label.specs.Drafts.{sealed_outline, done, left};
ghost use Rattle.label.specs.Label.{label_of};
ghost use Rattle.label.specs.Refusals.{Own, item_start, item_end, sending};
ghost use Rattle.agreement.specs.Calls.{Call, made, ready};
ghost use Rattle.agreement.specs.Station.{new_vars, call_refusal, send_refusal};
ghost use Rattle.station.specs.Sending.{places};
ghost use Rattle.station.specs.Vars.{vars, Leaves};

use crate::places::write_all;
use carrier::airing::Airing;
use carrier::carrier::Carrier;
use carrier::writing::PLACE;
use label::draft;
use label::refusal::Refusal;
use label::sealed::Sealed;
use label::tag::ItemBits;
use std::marker::PhantomData;

// A station on a carrier.
#[derive(Drop)]
pub struct Station<C> {
    pub(crate) service: u16,
    pub(crate) toggle: bool,
    pub(crate) item: ItemBits,
    pub(crate) since: bool,
    pub(crate) carrier: PhantomData<C>,
}

impl<C: Carrier> Station<C> {
    pub fn new(service: u16) -> Self
        ensures vars { vars result ≡ new_vars }
        ensures service { result.service ≡ service }
    {
        Station {
            service,
            toggle: false,
            item: ItemBits::default(),
            since: false,
            carrier: PhantomData,
        }
    }

    // Starts an item.
    pub fn start_item(&mut self) -> Result<(), Refusal>
        ensures reply { result ≡ done (call_refusal C.meaning (vars self.old) Call.start 0) tt }
        ensures own { Own item_start result }
        ensures after { Leaves C.meaning self.old self.new (made Call.start 0) }
    {
        if self.since {
            return Err(Refusal::ItemStarted);
        }
        self.item = ItemBits {
            toggle: !self.item.toggle,
            running: true,
        };
        self.since = true;
        Ok(())
    }

    // Ends the item that runs.
    pub fn end_item(&mut self) -> Result<(), Refusal>
        ensures reply { result ≡ done (call_refusal C.meaning (vars self.old) Call.end 0) tt }
        ensures own { Own item_end result }
        ensures after { Leaves C.meaning self.old self.new (made Call.end 0) }
    {
        if !self.item.running {
            return Err(Refusal::NoItemRuns);
        }
        self.item.running = false;
        Ok(())
    }

    // Sends a label: all its places, one after another, at the buffer's start; returns their number.
    pub fn send(&mut self, label: &Sealed, text: &[u8], buf: &mut [u8]) -> Result<usize, Refusal>
        ensures reply { result ≡ done (send_refusal C.meaning.writing (sealed_outline label.now) text.now (length buf.old)) (C.meaning.writing.count (sealed_outline label.now)) }
        ensures own { Own sending result }
        ensures after { Leaves C.meaning self.old self.new (made (Call.send (ready label.now) text.now) (length buf.old)) }
        ensures buffer { buf.new ≡ left (send_refusal C.meaning.writing (sealed_outline label.now) text.now (length buf.old)) (places (C.meaning.writing.frame (label_of (sealed_outline label.now) self.old.item text.now) self.old.toggle self.old.service) (C.meaning.writing.count (sealed_outline label.now)) ++ drop (21 * C.meaning.writing.count (sealed_outline label.now)) buf.old) buf.old }
    {
        // The first two tests are those of may_write; its room is that of one place, and here all are written.
        if !C::fits(label) {
            return Err(Refusal::LabelDoesNotFit);
        }
        if !label.matches(text) {
            return Err(Refusal::OtherText);
        }
        let n = C::count(label);
        if buf.len() / PLACE < n {
            return Err(Refusal::SmallBuffer);
        }
        let airing = Airing {
            label,
            text,
            item: self.item,
            toggle: self.toggle,
            service: self.service,
        };
        write_all::<C>(&airing, n, buf);
        self.toggle = !self.toggle;
        self.since = false;
        Ok(n)
    }
}
