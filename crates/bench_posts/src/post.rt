ghost use Rattle.std.specs.Prelude.{◌≡◌};
ghost use Rattle.label.specs.Drafts.{sealed_outline};
ghost use Rattle.front.specs.Reading.{reading_of};
ghost use Rattle.bench.specs.Held.{held};
ghost use Rattle.bench_posts.specs.Posts.{post_of, new_post, PostObeys, SendReply, Sends, Reads};

use crate::command::{Order, Sending};
use bench::buffer::buffer;
use bench::current::Current;
use carrier::carrier::Carrier;
use display::shown::Display;
use front::front::Front;
use front::record::Record;
use label::sealed::Sealed;
use script::fault::Fault;
use script::reply::Reply;
use station::station::Station;
use std::alloc::Global;

// A station and a display on one carrier.
#[derive(Drop)]
pub struct Post<C> {
    pub(crate) station: Station<C>,
    pub(crate) display: Display<C>,
}

impl<C: Carrier + Drop> Post<C> {
    pub fn new() -> Post<C>
        ensures { post_of C.state result ≡ new_post C.meaning }
    {
        Post {
            station: Station::new(0),
            display: Display::new(),
        }
    }

    // Carries out an order, with the label that is on the bench. A fault changes nothing.
    pub fn obey(&mut self, heap: Global, label: &Current, order: &Order) -> Result<Reply, Fault>
        ensures { PostObeys C.meaning (held label.now) order.now (post_of C.state self.old) result (post_of C.state self.new) }
    {
        match order {
            Order::Station(service) => {
                self.station = Station::new(*service);
                Ok(Reply::Call(Ok(())))
            }
            Order::Start => Ok(Reply::Call(self.station.start_item())),
            Order::End => Ok(Reply::Call(self.station.end_item())),
            Order::Send(sending) => self.send(heap, label, sending),
            Order::Take(frame) => Ok(Reply::Taken(self.display.take(frame.as_slice()))),
            Order::Read(class, size) => self.read(heap, *class, *size),
            Order::Retune => {
                self.display.retune();
                Ok(Reply::Call(Ok(())))
            }
            Order::Front => Ok(Reply::Front(self.front())),
        }
    }

    fn send(&mut self, heap: Global, label: &Current, sending: &Sending) -> Result<Reply, Fault>
        ensures { SendReply C.meaning (held label.now) sending.now (post_of C.state self.old) result (post_of C.state self.new) }
    {
        let (label, text) = label.sealed(&sending.text)?;
        self.send_over(heap, label, text, sending.size)
    }

    // Sends the label over this text, into a buffer of this size.
    fn send_over(
        &mut self,
        heap: Global,
        label: &Sealed,
        text: &[u8],
        size: usize,
    ) -> Result<Reply, Fault>
        ensures { Sends C.meaning (sealed_outline label.now) text.now size (post_of C.state self.old) result (post_of C.state self.new) }
    {
        let mut space = buffer(heap, size)?;
        let call = self.station.send(label, text, space.as_mut_slice());
        Ok(Reply::Sent(call, space))
    }

    // What a front shows that reads the display.
    fn front(&self) -> Record
        ensures { result ≡ reading_of ((post_of C.state self.now).shown.table.row 56) }
    {
        let mut front = Front::new();
        front.read(&self.display);
        front.record()
    }

    fn read(&self, heap: Global, class: u8, size: usize) -> Result<Reply, Fault>
        ensures { Reads (post_of C.state self.now) class size result }
    {
        let mut space = buffer(heap, size)?;
        let call = self.display.read(class, space.as_mut_slice());
        Ok(Reply::Text(call, space))
    }
}
