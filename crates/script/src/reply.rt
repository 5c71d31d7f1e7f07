ghost use Rattle.std.specs.Prelude.{◌≤◌, length, Some};
ghost use Rattle.std.specs.Fmt.{WritesOnOk};
ghost use Rattle.script.specs.Digits.{hex_of, printed};
ghost use Rattle.script.specs.Lines.{refused_line, call_line, counted_line, reply_line};

use carrier::answer::Answer;
use front::record::Record;
use label::refusal::Refusal;
use std::{fmt, str};

// What a command answers.
#[derive(Drop)]
pub enum Reply {
    // A call was accepted or refused.
    Call(Result<(), Refusal>),
    // The label fits, or does not.
    Fits(bool),
    // The label's number of frames.
    Count(usize),
    // A frame was written or refused, and the buffer after it.
    Written(Result<(), Refusal>, Vec<u8>),
    // A label was sent in so many frames or refused, and the buffer after it.
    Sent(Result<usize, Refusal>, Vec<u8>),
    // A display took a frame.
    Taken(Result<Answer, Refusal>),
    // A class's text was read, so many bytes, or refused, and the buffer after it.
    Text(Result<usize, Refusal>, Vec<u8>),
    // What the front shows.
    Front(Record),
}

// The most bytes whose digits are written at once: a write costs more than the digits of a byte.
const MOST: usize = 32;

// Writes the digits of at most so many bytes.
fn write_digits<W: fmt::Write>(f: &mut fmt::Formatter<W>, bytes: &[u8]) -> fmt::Result
    requires { length bytes.now ≤ MOST }
    ensures { WritesOnOk W.write_str_gives f.old result (hex_of bytes.now) f.new }
{
    let mut room = [0; 2 * MOST];
    let digits = &mut room[..2 * bytes.len()];
    let Ok(()) = hex::encode_to_slice(bytes, digits) else {
        unreachable!();
    };
    let Ok(text) = str::from_utf8(digits) else {
        unreachable!();
    };
    f.write_str(text)
}

// Bytes in hexadecimal, or `-` for none.
#[derive(Clone, Copy)]
struct Hex<'a>(&'a [u8]);

impl fmt::Display for Hex<'_> {
    ghost output = { λ hex. Some (printed hex.0.now) };

    fn fmt<W: fmt::Write>(&self, f: &mut fmt::Formatter<W>) -> fmt::Result {
        if self.0.is_empty() {
            return f.write_str("-");
        }
        for chunk in self.0.chunks(MOST) {
            write_digits(f, chunk)?;
        }
        Ok(())
    }
}

// A refusal by its number.
#[derive(Clone, Copy)]
struct Refused(Refusal);

impl fmt::Display for Refused {
    ghost output = { λ refused. Some (refused_line refused.0) };

    fn fmt<W: fmt::Write>(&self, f: &mut fmt::Formatter<W>) -> fmt::Result {
        write!(f, "refused {}", self.0.number())
    }
}

// What came of a call that gives nothing.
#[derive(Clone, Copy)]
struct Called(Result<(), Refusal>);

impl fmt::Display for Called {
    ghost output = { λ called. Some (call_line called.0) };

    fn fmt<W: fmt::Write>(&self, f: &mut fmt::Formatter<W>) -> fmt::Result {
        match self.0 {
            Ok(()) => f.write_str("ok"),
            Err(refusal) => f.write(Refused(refusal)),
        }
    }
}

// What came of a call that counts: the count behind the call's word.
#[derive(Clone, Copy)]
struct Counted<'a>(&'a str, Result<usize, Refusal>);

impl fmt::Display for Counted<'_> {
    ghost output = { λ counted. Some (counted_line counted.0.now counted.1) };

    fn fmt<W: fmt::Write>(&self, f: &mut fmt::Formatter<W>) -> fmt::Result {
        match self.1 {
            Ok(count) => write!(f, "{} {count}", self.0),
            Err(refusal) => f.write(Refused(refusal)),
        }
    }
}

// The reply as a line of text, without its end.
impl fmt::Display for Reply {
    ghost output = { λ reply. Some (reply_line reply) };

    fn fmt<W: fmt::Write>(&self, f: &mut fmt::Formatter<W>) -> fmt::Result {
        match self {
            Reply::Call(call) => f.write(Called(*call)),
            Reply::Fits(true) => f.write_str("yes"),
            Reply::Fits(false) => f.write_str("no"),
            Reply::Count(count) => write!(f, "{count}"),
            Reply::Written(call, space) => write!(f, "{} {}", Called(*call), Hex(space.as_slice())),
            Reply::Sent(call, space) => {
                write!(f, "{} {}", Counted("sent", *call), Hex(space.as_slice()))
            }
            Reply::Taken(Ok(answer)) => write!(f, "answer {}", answer.number()),
            Reply::Taken(Err(refusal)) => f.write(Refused(*refusal)),
            Reply::Text(call, space) => {
                write!(f, "{} {}", Counted("text", *call), Hex(space.as_slice()))
            }
            Reply::Front(Some(tenths)) => write!(f, "reading {tenths}"),
            Reply::Front(None) => f.write_str("dashes"),
        }
    }
}
