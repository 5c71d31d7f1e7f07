ghost use Rattle.std.specs.Prelude.{◌≡◌, slice_get, MatchOption};
ghost use Rattle.script.specs.declared.fault.Fault.TheVariants.{Wrong};
ghost use Rattle.bench.specs.Words.{IsAboutLabel};

use crate::carriers::{Named, Wanted};
use label::tag::Tag;
use script::fault::Fault;
use script::words::{byte, bytes, flag, half_word, number, size};
use std::alloc::Global;

// One frame of the sealed label, over its own text or another, into a buffer of so many bytes.
#[derive(Drop)]
pub struct Writing {
    pub carrier: Named,
    pub frame: Wanted,
    pub size: usize,
    pub text: Option<Vec<u8>>,
}

// A line's call, with its arguments.
#[derive(Drop)]
pub enum Command {
    Open(Vec<u8>),
    Tag(Tag),
    Seal,
    Reopen,
    Fits(Named),
    Count(Named),
    Write(Writing),
}

fn parse_tag(class: &str, start: &str, extent: &str) -> Result<Tag, Fault> {
    Ok(Tag {
        class: byte(class)?,
        start: byte(start)?,
        extent: byte(extent)?,
    })
}

impl Wanted {
    // (No FromStr: it takes three words.)
    fn parse(toggle: &str, service: &str, frame: &str) -> Result<Wanted, Fault> {
        Ok(Wanted {
            toggle: flag(toggle)?,
            service: half_word(service)?,
            number: number(frame)? as usize,
        })
    }
}

fn parse_write(
    carrier: &str,
    frame: Wanted,
    space: &str,
    text: Option<Vec<u8>>,
) -> Result<Command, Fault> {
    Ok(Command::Write(Writing {
        carrier: carrier.parse()?,
        frame,
        size: size(space)?,
        text,
    }))
}

impl Command {
    // The command that these words say. (No TryFrom: it takes memory too.)
    pub fn parse(heap: Global, words: &[&str]) -> Result<Command, Fault>
        ensures { MatchOption (slice_get words.now 0) (result ≡ Err Wrong) (λ word. (IsAboutLabel word.now → ⊥) → result ≡ Err Wrong) }
    {
        match words {
            ["open", text] => Ok(Command::Open(bytes(heap, text)?)),
            ["tag", class, start, extent] => Ok(Command::Tag(parse_tag(class, start, extent)?)),
            ["seal"] => Ok(Command::Seal),
            ["reopen"] => Ok(Command::Reopen),
            ["fits", carrier] => Ok(Command::Fits(carrier.parse()?)),
            ["count", carrier] => Ok(Command::Count(carrier.parse()?)),
            ["write", carrier, toggle, service, number, size] => {
                parse_write(carrier, Wanted::parse(toggle, service, number)?, size, None)
            }
            ["write", carrier, toggle, service, number, size, text] => {
                let text = Some(bytes(heap, text)?);
                parse_write(carrier, Wanted::parse(toggle, service, number)?, size, text)
            }
            _ => Err(Fault::Wrong),
        }
    }
}
