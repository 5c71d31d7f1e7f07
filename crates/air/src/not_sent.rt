use label::refusal::Refusal;
use programme::fault::Fault;
use std::error::Error;
use std::fmt;

// Why nothing is sent of a line.
#[derive(Clone, Copy, Debug)]
pub enum NotSent {
    Faulty(Fault),
    Refused(Refusal),
}

impl fmt::Display for NotSent {
    fn fmt<W: fmt::Write>(&self, f: &mut fmt::Formatter<W>) -> fmt::Result {
        match self {
            NotSent::Faulty(fault) => write!(f, "{fault}"),
            NotSent::Refused(refusal) => {
                let number = refusal.number();
                write!(f, "refused with {number}: {refusal}")
            }
        }
    }
}

impl Error for NotSent {}

impl From<Fault> for NotSent {
    fn from(fault: Fault) -> NotSent {
        NotSent::Faulty(fault)
    }
}

impl From<Refusal> for NotSent {
    fn from(refusal: Refusal) -> NotSent {
        NotSent::Refused(refusal)
    }
}
