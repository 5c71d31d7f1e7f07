use std::error::Error;
use std::fmt;
use std::str::FromStr;

pub const USAGE: &str = "usage: air CARRIER SERVICE < PROGRAMME

Reads a programme from standard input, a line at a time, and writes the frames
that carry it, one to a line. Lines that begin with # say in words what was done.

CARRIER  fm or dab
SERVICE  the service number, 0 to 65535, decimal or hexadecimal after 0x

A programme has these lines:
  06:00,2.4              a gauge reading: time and metres, parted by a comma or a
  06:10;2,43             semicolon; the metres with a decimal point or a decimal comma
  song TITLE / ARTIST    a song
  say TEXT               an announcement
  # REMARK               nothing, as a blank line
";

pub const HINT: &str = "air --help says how it is used";

// Why a command line asks for nothing.
#[derive(Clone, Copy, Debug)]
pub enum Misuse {
    Words,
    Service,
    Carrier,
}

impl fmt::Display for Misuse {
    fn fmt<W: fmt::Write>(&self, f: &mut fmt::Formatter<W>) -> fmt::Result {
        f.write_str(match self {
            Misuse::Words => "air: it takes a carrier and a service number",
            Misuse::Service => "air: SERVICE is a number from 0 to 65535",
            Misuse::Carrier => "air: CARRIER is fm or dab",
        })
    }
}

impl Error for Misuse {}

// A carrier by its name. (The bench reads one too, with another error, and air does not stand on the bench.)
#[derive(Clone, Copy, Debug)]
pub enum CarrierName {
    Fm,
    Dab,
}

impl FromStr for CarrierName {
    type Err = Misuse;

    fn from_str(word: &str) -> Result<CarrierName, Misuse> {
        match word {
            "fm" => Ok(CarrierName::Fm),
            "dab" => Ok(CarrierName::Dab),
            _ => Err(Misuse::Carrier),
        }
    }
}

// What the command line asks for.
#[derive(Clone, Copy, Debug)]
pub enum Wanted {
    Help,
    Air { carrier: CarrierName, service: u16 },
}

fn service_number(word: &str) -> Result<u16, Misuse> {
    let number = match word.strip_prefix("0x") {
        Some(digits) => u16::from_str_radix(digits, 16),
        None => word.parse::<u16>(),
    };
    number.map_err(|_| Misuse::Service)
}

impl TryFrom<&[String]> for Wanted {
    type Error = Misuse;

    fn try_from(words: &[String]) -> Result<Wanted, Misuse> {
        match words {
            [word] if word.as_str() == "--help" => Ok(Wanted::Help),
            [carrier, service] => {
                let service = service_number(service.as_str())?;
                let carrier = carrier.as_str().parse::<CarrierName>()?;
                Ok(Wanted::Air { carrier, service })
            }
            _ => Err(Misuse::Words),
        }
    }
}
