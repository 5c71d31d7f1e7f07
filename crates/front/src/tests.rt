ghost use Rattle.std.specs.Prelude.{◌≡◌};

use crate::front::Front;
use crate::lamps::{Panel, lamp_test};
use crate::record::{Record, reading_of};

#[test]
fn readings(rt: HostRuntime) {
    let rows = [
        ("12.5", 125),
        ("2.4", 24),
        ("0.0", 0),
        ("02.4", 24),
        ("99.9", 999),
    ];
    for (text, tenths) in rows {
        assert_eq!(rt; reading_of(text.as_bytes()), Some(tenths));
    }
}

#[test]
fn dashes(rt: HostRuntime) {
    let rows = [
        "", "24", "2.", ".5", "2.45", "123.4", "2,4", "-2.4", "2.4 ", "1:.5", "2.4\0",
    ];
    for text in rows {
        assert_eq!(rt; reading_of(text.as_bytes()), None);
    }
}

// Keeps what it draws last, and fails at some drawing.
#[derive(Drop)]
struct Tape {
    last: Record,
    left: u8,
}

#[derive(Clone, Copy, PartialEq, Eq, Debug)]
struct Torn;

impl Panel for Tape {
    type Fault = Torn;

    ghost draws = { λ _ r _ after. after.last ≡ r };

    fn draw(&mut self, record: Record) -> Result<(), Torn> {
        self.last = record;
        if self.left == 0 {
            return Err(Torn);
        }
        self.left -= 1;
        Ok(())
    }
}

fn tested(left: u8) -> (Result<(), Torn>, Record, Record) {
    let mut front = Front::new();
    front.show(b"2.4");
    let mut tape = Tape { last: None, left };
    let answer = lamp_test(&mut front, &mut tape);
    (answer, tape.last, front.record())
}

#[test]
fn lamp_tests(rt: HostRuntime) {
    let now = Some(24);
    assert_eq!(rt; tested(0), (Err(Torn), Some(888), now));
    assert_eq!(rt; tested(1), (Err(Torn), now, now));
    assert_eq!(rt; tested(2), (Ok(()), now, now));
}
