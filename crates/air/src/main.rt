// air: a programme of gauge readings, songs and announcements becomes the frames of a carrier.
#![tactic(auto)]

mod arguments;
mod not_sent;
mod readable;
mod report;
mod transmitter;

use arguments::{CarrierName, HINT, USAGE, Wanted};
use carrier::carrier::Carrier;
use dab::dab::Dab;
use fm::fm::Fm;
use lines::form::Form;
use report::Report;
use std::env;
use std::io::{BufRead, BufReader};
use std::process::ExitCode;
use transmitter::Transmitter;

// Puts every line of standard input on the air.
fn run<C: Carrier>(rt: &HostRuntime, service: u16, form: Form) -> anyhow::Result<()> {
    let mut transmitter = Transmitter::new(service, form);
    let lines = BufReader::new(rt.alloc(), rt.stdin())?.split(rt.alloc(), b'\n');
    for (number, line) in (1..=u64::MAX).zip(lines) {
        transmitter.air::<C>(line?.as_slice(), &Report { rt, number })?;
    }
    Ok(())
}

fn serve(rt: &HostRuntime, wanted: Wanted) -> anyhow::Result<()> {
    match wanted {
        Wanted::Help => {
            rt.print(USAGE)?;
            Ok(())
        }
        Wanted::Air { carrier, service } => match carrier {
            CarrierName::Fm => run::<Fm>(rt, service, Form::Blocks),
            CarrierName::Dab => run::<Dab>(rt, service, Form::Row),
        },
    }
}

fn main(rt: HostRuntime) -> anyhow::Result<ExitCode> {
    let words: Vec<String> = env::args(&rt)?.skip(1).collect(rt.alloc())?;
    match Wanted::try_from(words.as_slice()) {
        Ok(wanted) => {
            serve(&rt, wanted)?;
            Ok(ExitCode::SUCCESS)
        }
        Err(misuse) => {
            rt.eprintln(misuse)?;
            rt.eprintln(HINT)?;
            Ok(ExitCode::FAILURE)
        }
    }
}
