ghost use Rattle.std.specs.Prelude.{◌≡◌, slice_get, MatchOption};
ghost use Rattle.script.specs.declared.fault.Fault.TheVariants.{Wrong};
ghost use Rattle.bench_posts.specs.Words.{IsCommand};

use bench::carriers::Named;
use script::fault::Fault;
use script::words::{byte, bytes, half_word, size as size_of};
use std::alloc::Global;

// The sealed label, over its own text or another, into a buffer of so many bytes.
#[derive(Drop)]
pub struct Sending {
    pub size: usize,
    pub text: Option<Vec<u8>>,
}

// A call of a carrier's station or display.
#[derive(Drop)]
pub enum Order {
    // The station is new, with this service number.
    Station(u16),
    Start,
    End,
    // The station sends the sealed label.
    Send(Sending),
    // The display takes a frame.
    Take(Vec<u8>),
    // The display's text of a class is read into a buffer of so many bytes.
    Read(u8, usize),
    // The display is new.
    Retune,
    // The front reads the display.
    Front,
}

// A line's call, with its arguments.
#[derive(Drop)]
pub enum Command {
    // A call about a label.
    Label(bench::command::Command),
    At(Named, Order),
}

fn send(size: &str, text: Option<Vec<u8>>) -> Result<Order, Fault> {
    let size = size_of(size)?;
    Ok(Order::Send(Sending { size, text }))
}

fn at(carrier: &str, order: Order) -> Result<Command, Fault> {
    Ok(Command::At(carrier.parse()?, order))
}

impl Command {
    // The command that these words say: a call of a station or a display, or else one about a label.
    pub fn parse(heap: Global, words: &[&str]) -> Result<Command, Fault>
        ensures { MatchOption (slice_get words.now 0) (result ≡ Err Wrong) (λ word. (IsCommand word.now → ⊥) → result ≡ Err Wrong) }
    {
        match words {
            ["station", carrier, service] => at(carrier, Order::Station(half_word(service)?)),
            ["start", carrier] => at(carrier, Order::Start),
            ["end", carrier] => at(carrier, Order::End),
            ["send", carrier, size] => at(carrier, send(size, None)?),
            ["send", carrier, size, text] => at(carrier, send(size, Some(bytes(heap, text)?))?),
            ["take", carrier, frame] => at(carrier, Order::Take(bytes(heap, frame)?)),
            ["read", carrier, class, size] => {
                at(carrier, Order::Read(byte(class)?, size_of(size)?))
            }
            ["retune", carrier] => at(carrier, Order::Retune),
            ["front", carrier] => at(carrier, Order::Front),
            _ => Ok(Command::Label(bench::command::Command::parse(heap, words)?)),
        }
    }
}
