ghost use Rattle.std.specs.Prelude.{ℕ, ◌==◌, true, false, List, Some, [], slice_index, refl};
ghost use Rattle.taking.specs.declared.look.Look.TheVariants.{Behind};
ghost use Rattle.std.proofs.Common.{rules};

use crate::arrived::Arrived;
use crate::held::{Piece, Row};
use crate::look::Look;
use crate::pieces::Pieces;
use crate::segment::Segment;
use crate::taken::Taking;
use arrayvec::ArrayVec;
use carrier::answer::Answer;
use carrier::short_list::ShortList;
use label::tag::ItemBits;
use std::test::Fail;

// One letter of three; the text ends in a full stop, or behind the third.
#[derive(Clone, Copy)]
struct Letter([u8; 1]);

impl Segment<3> for Letter {
    ghost Meant = { List ℕ };

    ghost meant = { λ s. s.0 };

    ghost segments = { record { count = 3; ends = λ d. slice_index d 0 == 46; bytes = λ d. d; unended = Some []; same = λ d e. slice_index d 0 == slice_index e 0; past = Behind; shuts = true } };

    ghost counts = { refl };

    ghost some = { Prim.search rules };

    fn past() -> Look {
        Look::Behind
    }

    fn shuts() -> bool {
        true
    }

    fn ends_behind_all() -> bool {
        true
    }

    fn ends(&self) -> bool {
        self.0[0] == b'.'
    }

    fn is_same(&self, other: &Letter) -> bool {
        self.0[0] == other.0[0]
    }

    fn part(&self) -> &[u8] {
        &self.0
    }
}

// A letter that cannot be copied.
#[derive(Drop)]
struct Sole(Letter);

impl Segment<3> for Sole {
    ghost Meant = { List ℕ };

    ghost meant = { λ s. s.0.0 };

    ghost segments = { ⟦<Letter as Segment<3>>⟧.segments };

    ghost counts = { refl };

    ghost some = { Prim.search rules };

    fn past() -> Look {
        Letter::past()
    }

    fn shuts() -> bool {
        Letter::shuts()
    }

    fn ends_behind_all() -> bool {
        Letter::ends_behind_all()
    }

    fn ends(&self) -> bool {
        self.0.ends()
    }

    fn is_same(&self, other: &Sole) -> bool {
        self.0.is_same(&other.0)
    }

    fn part(&self) -> &[u8] {
        self.0.part()
    }
}

fn piece_of(number: usize, byte: u8) -> Option<Piece<Letter, 3>> {
    let segment = Letter([byte]);
    if number < 3 {
        Some(Piece { number, segment })
    } else {
        None
    }
}

fn looks(row: &Row<Letter, 3>, number: usize, byte: u8) -> Option<Look> {
    Some(row.look(&piece_of(number, byte)?))
}

fn put(row: &mut Row<Letter, 3>, number: usize, byte: u8) {
    if let Some(piece) = piece_of(number, byte) {
        row.put(&piece);
    }
}

fn has_text(row: &Row<Letter, 3>, text: &[u8]) -> bool {
    matches!(row.text(), Some(own) if own.as_slice() == text)
}

#[test]
fn pieces_in_any_order(rt: HostRuntime) {
    let mut row = Row::new();
    put(&mut row, 2, b'c');
    put(&mut row, 0, b'a');
    assert!(rt; row.text().is_none());
    assert!(rt; matches!(looks(&row, 0, b'a'), Some(Look::Equal)));
    assert!(rt; matches!(looks(&row, 0, b'b'), Some(Look::Unlike)));
    assert!(rt; matches!(looks(&row, 1, b'b'), Some(Look::Fresh)));
    assert!(rt; matches!(looks(&row, 1, b'.'), Some(Look::Unlike)));
    put(&mut row, 1, b'b');
    assert!(rt; has_text(&row, b"abc"));
    row.clear();
    assert!(rt; row.text().is_none());
}

#[test]
fn behind_an_end(rt: HostRuntime) {
    let mut row = Row::new();
    put(&mut row, 1, b'.');
    assert!(rt; matches!(looks(&row, 2, b'c'), Some(Look::Behind)));
    put(&mut row, 0, b'a');
    assert!(rt; has_text(&row, b"a."));
}

// Pieces that cannot be copied are kept as they are given.
#[test]
fn kept_pieces(rt: HostRuntime) {
    let mut row: Row<Sole, 3> = Row::new();
    for (number, byte) in [(2, b'c'), (0, b'a'), (1, b'b')] {
        assert!(rt; row.text().is_none());
        let segment = Sole(Letter([byte]));
        let piece = Piece { number, segment };
        assert!(rt; matches!(row.look(&piece), Look::Fresh));
        row.keep(piece);
    }
    assert!(rt; matches!(row.text(), Some(own) if own.as_slice() == b"abc".as_slice()));
    let segment = Sole(Letter([b'a']));
    let again = Piece { number: 0, segment };
    assert!(rt; matches!(row.look(&again), Look::Equal));
    row.clear();
    assert!(rt; matches!(row.look(&again), Look::Fresh));
}

// Pieces, tags that arrive and a label told are copied where they are used twice.
#[test]
fn copies(rt: HostRuntime) {
    let mut taking: Taking<Row<Letter, 3>> = Taking::new();
    let segment = Letter([b'.']);
    let piece = Piece { number: 0, segment };
    let arrived = Arrived {
        item: ItemBits::default(),
        tags: ShortList::from(ArrayVec::new()),
    };
    assert!(rt; taking.on_text(false, &piece) == Answer::Kept);
    assert!(rt; taking.on_tags(None, &arrived) == Ok(Answer::Complete));
    let told = taking.told().copied();
    assert!(rt; taking.on_text(false, &piece) == Answer::Again);
    assert!(rt; taking.on_tags(None, &arrived) == Ok(Answer::Again));
    assert!(rt; taking.on_text(true, &piece) == Answer::Kept);
    assert!(rt; taking.told().is_none());
    assert!(rt; matches!(told, Some(own) if own.text.as_slice() == b".".as_slice()));
}
