ghost use Rattle.std.specs.Prelude.{◌≡◌, ◌++◌, length, drop};
ghost use Rattle.label.specs.Drafts.{done, left};
ghost use Rattle.label.specs.Refusals.{Own, reading};
ghost use Rattle.carrier.specs.Meaning.{reply};
ghost use Rattle.agreement.specs.Reading.{read_refusal};
ghost use Rattle.agreement.specs.Shown.{display_step, new_display, on_told};
ghost use Rattle.display.specs.View.{view};

use crate::shown::Display;
use crate::table::ClassTable;
use carrier::answer::Answer;
use carrier::carrier::Carrier;
use label::category::is_silent;
use label::refusal::Refusal;

impl<C: Carrier> Display<C> {
    // A display that holds nothing.
    #[tactic(auto, using(crate::proofs::Rows::new_row))]
    pub fn new() -> Self
        ensures { view C.state result ≡ new_display C.meaning }
    {
        Display {
            carrier: C::new(),
            table: ClassTable::default(),
        }
    }

    // Takes a frame.
    pub fn take(&mut self, frame: &[u8]) -> Result<Answer, Refusal>
        ensures reply { result ≡ reply (C.meaning.step (C.state self.old.carrier) frame.now) }
        ensures shown { view C.state self.new ≡ display_step C.meaning (view C.state self.old) frame.now }
    {
        let answer = self.carrier.take(frame)?;
        if answer == Answer::Complete {
            self.show();
        }
        Ok(answer)
    }

    // Applies the rules to the complete label.
    fn show(&mut self)
        ensures carrier { self.new.carrier ≡ self.old.carrier }
        ensures table { (view C.state self.new).table ≡ on_told (view C.state self.old).table (C.meaning.told (C.state self.old.carrier)) }
    {
        if let Some(told) = self.carrier.told() {
            self.table.apply(told);
        }
    }

    // Copies what is held for a class to the buffer's start, and returns its length, 0 for nothing.
    pub fn read(&self, class: u8, buf: &mut [u8]) -> Result<usize, Refusal>
        ensures reply { result ≡ done (read_refusal (view C.state self.now).table class (length buf.old)) (length ((view C.state self.now).table.row class)) }
        ensures own { Own reading result }
        ensures buffer { buf.new ≡ left (read_refusal (view C.state self.now).table class (length buf.old)) ((view C.state self.now).table.row class ++ drop (length ((view C.state self.now).table.row class)) buf.old) buf.old }
    {
        if is_silent(class) {
            return Err(Refusal::UnreadableClass);
        }
        let text = self.table.row(class);
        if buf.len() < text.len() {
            return Err(Refusal::ShortBuffer);
        }
        buf[..text.len()].copy_from_slice(text);
        Ok(text.len())
    }
}

impl<C: Carrier + Drop> Display<C> {
    // Makes the display new.
    pub fn retune(&mut self)
        ensures { view C.state self.new ≡ new_display C.meaning }
    {
        *self = Display::new();
    }
}
