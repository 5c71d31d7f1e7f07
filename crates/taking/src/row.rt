ghost use Rattle.std.specs.Prelude.{◌≡◌, suc, ◌-◌, ◌<◌, ◌≤◌, length, is_some};
ghost use Rattle.std.specs.List.{list_any};
ghost use Rattle.std.specs.Option.{option_map};
ghost use Rattle.taking.specs.Rows.{held_in, row_held, piece_meant};
ghost use Rattle.taking.specs.Segments.{Held, Numbered, ends_at, ends_below, any_from, look_at, look_segment, read_from, in_segments};
ghost use Rattle.taking.specs.Reading.{nothing_read};

use crate::held::{Piece, Row};
use crate::look::Look;
use crate::pieces::Pieces;
use crate::segment::Segment;
use arrayvec::ArrayVec;

// The text ends in this segment. (A closure for is_some_and would want a contract of its own.)
fn ends<S: Segment<N>, const N: usize>(held: &Option<S>) -> bool
    ensures { result ≡ ends_at S.segments (option_map S.meant held.now) }
{
    match held {
        None => false,
        Some(segment) => segment.ends(),
    }
}

// The text ends in one of these segments. (In two steps: a chain over a part of the row does not prove in one.)
fn any_ends<S: Segment<N>, const N: usize>(segments: &[Option<S>]) -> bool
    ensures { result ≡ list_any (λ o. ends_at S.segments (option_map S.meant o)) segments.now }
{
    segments.iter().any(ends)
}

// The text ends in a held segment below the number.
fn ends_before<S: Segment<N>, const N: usize>(segments: &[Option<S>], number: usize) -> bool
    requires { number ≤ length segments.now }
    ensures { result ≡ ends_below S.segments (held_in S.meant segments.now) number }
{
    any_ends(&segments[..number])
}

fn any_held<S>(segments: &[Option<S>]) -> bool
    ensures { result ≡ list_any is_some segments.now }
{
    segments.iter().any(Option::is_some)
}

// A segment above the number is held.
fn goes_on_after<S: Segment<N>, const N: usize>(segments: &[Option<S>], number: usize) -> bool
    requires { number < length segments.now }
    ensures { result ≡ any_from (held_in S.meant segments.now) (length segments.now - suc number) (suc number) }
{
    any_held(&segments[number + 1..])
}

// A segment beside the one that is held under its number.
fn look_at<S: Segment<N>, const N: usize>(held: &Option<S>, segment: &S) -> Look
    ensures { result ≡ look_at S.segments (option_map S.meant held.now) (S.meant segment.now) }
{
    match held {
        None => Look::Fresh,
        Some(own) if own.is_same(segment) => Look::Equal,
        Some(_) => Look::Unlike,
    }
}

// A segment with its number beside those that are held.
fn look_in<S: Segment<N>, const N: usize>(
    segments: &[Option<S>],
    number: usize,
    segment: &S,
) -> Look
    requires long { length segments.now ≡ N }
    requires small { number < N }
    ensures { result ≡ look_segment S.segments (held_in S.meant segments.now) (record { number = number; segment = S.meant segment.now }) }
{
    if ends_before(segments, number) {
        return S::past();
    }
    if S::shuts() && segment.ends() && goes_on_after(segments, number) {
        return Look::Unlike;
    }
    look_at(&segments[number], segment)
}

// The parts of the segments up to the one in which the text ends.
#[tactic(auto, using(crate::proofs::Rows::read_ends))]
fn joined<S: Segment<N>, const N: usize>(segments: &[Option<S>]) -> Option<ArrayVec<u8, 128>>
    requires { length segments.now ≡ N }
    ensures { read_from S.segments (held_in S.meant segments.now) N 0 ≡ option_map (λ t. t.items) result }
{
    let mut text = ArrayVec::new();
    for segment in segments {
        let segment = segment.as_ref()?;
        if segment.add_to(&mut text) {
            return Some(text);
        }
    }
    S::ends_behind_all().then_some(text)
}

// A row's own functions serve segments that cannot be copied too. (Pieces asks for a copy: its put is lent what it puts.)
impl<S: Segment<N>, const N: usize> Row<S, N> {
    pub fn new() -> Self
        ensures { row_held S.meant result ≡ (in_segments S.segments).none }
    {
        Row {
            segments: Default::default(),
        }
    }

    pub fn clear(&mut self)
        ensures { row_held S.meant self.new ≡ (in_segments S.segments).none }
    {
        *self = Self::new();
    }

    pub fn look(&self, piece: &Piece<S, N>) -> Look
        ensures { result ≡ (in_segments S.segments).look (row_held S.meant self.now) (piece_meant S.meant piece.now) }
    {
        look_in(&self.segments, piece.number, &piece.segment)
    }

    // Holds a piece that is given.
    pub fn keep(&mut self, piece: Piece<S, N>)
        ensures { row_held S.meant self.new ≡ (in_segments S.segments).put (row_held S.meant self.old) (piece_meant S.meant piece) }
    {
        let Piece { number, segment } = piece;
        self.segments[number] = Some(segment);
    }

    // The text, where it is complete.
    pub fn text(&self) -> Option<ArrayVec<u8, 128>>
        ensures { (in_segments S.segments).text (row_held S.meant self.now) ≡ option_map (λ t. t.items) result }
    {
        joined(&self.segments)
    }
}

impl<S: Segment<N>, const N: usize> Pieces for Row<S, N>
where
    S: Copy,
{
    type Piece = Piece<S, N>;

    ghost Held = { Held S.Meant };

    ghost Meant = { Numbered S.Meant };

    ghost held = { row_held S.meant };

    ghost meant = { piece_meant S.meant };

    ghost pieces = { in_segments S.segments };

    ghost empty = { nothing_read S.segments N S.counts S.some };

    fn new() -> Self {
        Row::new()
    }

    fn clear(&mut self) {
        Row::clear(self);
    }

    fn look(&self, piece: &Piece<S, N>) -> Look {
        Row::look(self, piece)
    }

    fn put(&mut self, piece: &Piece<S, N>) {
        self.segments[piece.number] = Some(piece.segment);
    }

    // (Not by the row's own, through which the text would be copied once more.)
    fn text(&self) -> Option<ArrayVec<u8, 128>> {
        joined(&self.segments)
    }
}
