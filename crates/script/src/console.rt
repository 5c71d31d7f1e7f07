ghost use Rattle.std.specs.Prelude.{⊤, ◌≡◌, ◌↔◌, IfOk, IfSome, IsNone, IsTrue, OnErr, string_bytes};
ghost use Rattle.script.specs.Asking.{without_return, AsksNothing};
ghost use Rattle.script.specs.Answering.{Answers};
ghost use Rattle.script.specs.declared.reply.Reply.{Reply};

use crate::fault::Fault;
use crate::reply::Reply;
use std::alloc::{AllocError, Global};
use std::io;
use std::io::{BufRead, BufReader, Read, Write};

// The longest line.
const LONGEST: usize = 16384;

// A line without the carriage return that may end it.
fn without_return(line: &[u8]) -> &[u8]
    ensures { result.now ≡ without_return line.now }
{
    match line.split_last() {
        Some((b'\r', front)) => front,
        _ => line,
    }
}

// A line that asks for nothing: nothing but spaces, or a remark.
fn is_skipped(line: &[u8]) -> bool
    ensures { IsTrue result ↔ AsksNothing line.now }
{
    line.first() == Some(&b'#') || line.iter().all(|b| *b == b' ')
}

// The words of a line, parted by single spaces.
fn words_of(heap: Global, line: &[u8]) -> Result<Vec<&str>, Fault> {
    if line.len() > LONGEST {
        return Err(Fault::Wrong);
    }
    let text = std::str::from_utf8(line).map_err(|_| Fault::Wrong)?;
    Ok(text.split(' ').collect(heap)?)
}

// What carries out commands that are put in words.
pub trait Console {
    // what the console holds
    ghost State: { Type 0 };

    ghost state: { Self → State };

    // the console, a reply that some command then gets, and the console after it; unsaid, it is any reply, and `answer` promises nothing of it
    ghost replies: { Self → Reply → Self → Type 0 } = { λ _ _ _. ⊤ };

    // Carries out the command that these words say. A fault changes nothing.
    fn obey_words(&mut self, heap: Global, words: &[&str]) -> Result<Reply, Fault>
        ensures reply { IfOk result (λ r. replies self.old r self.new) }
        ensures fault { OnErr result (state self.new ≡ state self.old) };

    // The answer to a line, both without their ends; no answer to a line that asks for nothing.
    final fn answer(&mut self, heap: Global, line: &[u8]) -> Result<Option<String>, AllocError>
        ensures asked { IfOk result (λ a. IsNone a ↔ AsksNothing (without_return line.now)) }
        ensures still { AsksNothing (without_return line.now) → Self.state self.new ≡ Self.state self.old }
        ensures answered { IfOk result (λ a. IfSome a (λ s. Answers Self.state Self.replies self.old (string_bytes s) self.new)) }
    {
        let line = without_return(line);
        if is_skipped(line) {
            return Ok(None);
        }
        match obey_line(self, heap, line) {
            Ok(reply) => Ok(Some(reply.to_string(heap)?)),
            Err(Fault::Wrong) => Ok(Some(String::from_str(heap, "error")?)),
            // a fault keeps no `AllocError`, since the libraries' own errors of memory keep none
            Err(Fault::Memory) => Err(AllocError),
        }
    }
}

// Carries out the command of a line.
fn obey_line<C: Console>(console: &mut C, heap: Global, line: &[u8]) -> Result<Reply, Fault>
    ensures reply { IfOk result (λ r. C.replies console.old r console.new) }
    ensures fault { OnErr result (C.state console.new ≡ C.state console.old) }
{
    let words = words_of(heap, line)?;
    console.obey_words(heap, words.as_slice())
}

// Answers each line of the input by a line of the output, until the input ends.
pub fn serve<C: Console, R: Read + Drop, W: Write>(
    console: &mut C,
    heap: Global,
    input: R,
    out: &mut W,
) -> io::Result<()> {
    for line in BufReader::new(heap, input)?.split(heap, b'\n') {
        if let Some(mut answer) = console.answer(heap, line?.as_slice())? {
            answer.push('\n')?;
            out.write_all(answer.as_bytes())?;
        }
    }
    Ok(())
}
