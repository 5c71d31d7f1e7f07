ghost use Rattle.std.specs.Prelude.{◌≡◌};
ghost use Rattle.label.specs.Drafts.{sealed_outline, opening_refusal, done};
ghost use Rattle.script.specs.declared.reply.Reply.TheVariants.{Call};
ghost use Rattle.bench.specs.Held.{Held, nothing, held};
ghost use Rattle.bench.specs.State.{Obeys, Replies, opened, tag_reply, after_tag, seal_reply, after_seal, reopen_reply, after_reopen, fits_reply, count_reply, Writes, WriteReply};

use crate::buffer::buffer;
use crate::carriers::Named;
use crate::command::{Command, Writing};
use crate::current::Current;
use label::sealed::{Draft, Sealed};
use label::tag::Tag;
use script::console::Console;
use script::fault::Fault;
use script::reply::Reply;
use std::alloc::Global;

// The console's state.
#[derive(Drop)]
pub struct Bench {
    pub label: Current,
}

impl Writing {
    // Writes the frame of this label, over this text.
    fn write(&self, heap: Global, label: &Sealed, text: &[u8]) -> Result<Reply, Fault>
        ensures { Writes self.now (sealed_outline label.now) text.now result }
    {
        let mut space = buffer(heap, self.size)?;
        let call = self
            .carrier
            .write(label, text, self.frame, space.as_mut_slice());
        Ok(Reply::Written(call, space))
    }
}

impl Bench {
    pub fn new() -> Bench
        ensures { held result.label ≡ nothing }
    {
        Bench {
            label: Current::Nothing,
        }
    }

    // Carries out a command. A fault changes nothing.
    pub fn obey(&mut self, heap: Global, command: Command) -> Result<Reply, Fault>
        ensures { Obeys (held self.old.label) command result (held self.new.label) }
    {
        match command {
            Command::Open(text) => Ok(self.open(text)),
            Command::Tag(tag) => self.tag(tag),
            Command::Seal => self.seal(),
            Command::Reopen => self.reopen(),
            Command::Fits(carrier) => self.fits(carrier),
            Command::Count(carrier) => self.count(carrier),
            Command::Write(writing) => self.write(heap, &writing),
        }
    }

    fn open(&mut self, text: Vec<u8>) -> Reply
        ensures reply { result ≡ Call (done (opening_refusal text.items) tt) }
        ensures after { held self.new.label ≡ opened (held self.old.label) text.items }
    {
        match Draft::open(text.as_slice()) {
            Ok(draft) => {
                self.label = Current::Drafted(draft, text);
                Reply::Call(Ok(()))
            }
            Err(refusal) => Reply::Call(Err(refusal)),
        }
    }

    fn tag(&mut self, tag: Tag) -> Result<Reply, Fault>
        ensures reply { result ≡ tag_reply (held self.old.label) tag }
        ensures after { held self.new.label ≡ after_tag (held self.old.label) tag }
    {
        match &mut self.label {
            Current::Drafted(draft, _) => Ok(Reply::Call(draft.tag(tag))),
            _ => Err(Fault::Wrong),
        }
    }

    fn seal(&mut self) -> Result<Reply, Fault>
        ensures reply { result ≡ seal_reply (held self.old.label) }
        ensures after { held self.new.label ≡ after_seal (held self.old.label) }
    {
        match std::mem::replace(&mut self.label, Current::Nothing) {
            Current::Drafted(draft, text) => {
                self.label = Current::Closed(draft.seal(), text);
                Ok(Reply::Call(Ok(())))
            }
            other => {
                self.label = other;
                Err(Fault::Wrong)
            }
        }
    }

    fn reopen(&mut self) -> Result<Reply, Fault>
        ensures reply { result ≡ reopen_reply (held self.old.label) }
        ensures after { held self.new.label ≡ after_reopen (held self.old.label) }
    {
        match std::mem::replace(&mut self.label, Current::Nothing) {
            Current::Closed(label, text) => {
                self.label = Current::Drafted(label.reopen(), text);
                Ok(Reply::Call(Ok(())))
            }
            other => {
                self.label = other;
                Err(Fault::Wrong)
            }
        }
    }

    fn fits(&self, carrier: Named) -> Result<Reply, Fault>
        ensures { result ≡ fits_reply (held self.now.label) carrier }
    {
        match &self.label {
            Current::Closed(label, _) => Ok(Reply::Fits(carrier.fits(label))),
            _ => Err(Fault::Wrong),
        }
    }

    fn count(&self, carrier: Named) -> Result<Reply, Fault>
        ensures { result ≡ count_reply (held self.now.label) carrier }
    {
        match &self.label {
            Current::Closed(label, _) if carrier.fits(label) => {
                Ok(Reply::Count(carrier.count(label)))
            }
            _ => Err(Fault::Wrong),
        }
    }

    fn write(&self, heap: Global, writing: &Writing) -> Result<Reply, Fault>
        ensures { WriteReply (held self.now.label) writing.now result }
    {
        let (label, text) = self.label.sealed(&writing.text)?;
        writing.write(heap, label, text)
    }
}

impl Console for Bench {
    ghost State = { Held };

    ghost state = { λ b. held b.label };

    ghost replies = { λ b r after. Replies (held b.label) r (held after.label) };

    fn obey_words(&mut self, heap: Global, words: &[&str]) -> Result<Reply, Fault> {
        let command = Command::parse(heap, words)?;
        self.obey(heap, command)
    }
}
