ghost use Rattle.std.specs.Prelude.{⊤, ◌≡◌, ◌<◌};

use std::alloc::AllocError;

// A segment with its number, one of N.
#[derive(Drop)]
pub struct Piece<S, const N: usize> {
    pub number: usize,
    pub segment: S,
    ghost small: { number < N },
}

impl<S: Copy, const N: usize> Clone for Piece<S, N> {
    ghost is_clone = { λ piece copy. copy ≡ piece };

    ghost is_infallible = { λ _. ⊤ };

    fn clone(&self) -> Result<Self, AllocError> {
        Ok(*self)
    }
}

impl<S: Copy, const N: usize> Copy for Piece<S, N> {}

// The text as far as it has arrived: the held segments by their numbers.
#[derive(Drop)]
pub struct Row<S, const N: usize> {
    pub(crate) segments: [Option<S>; N],
}
