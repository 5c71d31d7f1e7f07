ghost use Rattle.std.specs.Prelude.{◌≡◌};
ghost use Rattle.front.specs.Lamps.{Draws, Tested, lit};

use crate::front::Front;
use crate::record::Record;

// A lamp test. While it lives the front shows 88.8; when it goes, however that comes, the front shows what it showed before.
pub struct LampTest<'a> {
    front: &'a mut Front,
    old: Record,
}

impl<'a> LampTest<'a> {
    pub fn start(front: &'a mut Front) -> LampTest<'a>
        ensures lit { result.front.now.«record» ≡ lit }
        ensures old { result.old ≡ front.old.«record» }
        ensures lent { result.front.ghost_name ≡ front.entry.ghost_name }
    {
        let old = front.record;
        front.record = Some(888);
        LampTest { front, old }
    }
}

impl LampTest<'_> {
    // What the front shows meanwhile.
    pub fn record(&self) -> Record
        ensures { result ≡ self.entry.now.front.now.«record» }
    {
        self.front.record
    }
}

impl Drop for LampTest<'_> {
    fn drop(self)
        ensures { self.exit.0.now.«record» ≡ self.entry.old }
    {
        let LampTest { front, old } = self;
        front.record = old;
    }
}

// What draws a record where it can be seen.
pub trait Panel {
    type Fault;

    // how it may answer and be left when it is asked to draw a record
    ghost draws: { Draws Self Self.Fault };

    fn draw(&mut self, record: Record) -> Result<(), Self::Fault>
        ensures { draws self.entry.now «record» result self.exit.now };
}

// Has the panel draw the lit front, and then the front as it was. A panel that fails ends the test.
pub fn lamp_test<P: Panel>(front: &mut Front, panel: &mut P) -> Result<(), P::Fault>
    ensures front { front.new ≡ front.old }
    ensures panel { Tested P.Panel.draws panel.old front.old.«record» result panel.new }
{
    {
        let test = LampTest::start(front);
        panel.draw(test.record())?;
    }
    panel.draw(front.record())
}
