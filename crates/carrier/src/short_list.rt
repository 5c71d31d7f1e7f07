ghost use Rattle.std.specs.Prelude.{⊤, ◌≡◌, ◌≤◌, length, take};

use arrayvec::ArrayVec;
use std::alloc::AllocError;

// Up to CAP entries, which lie in the value itself and are copied with it. (An ArrayVec can only be cloned.)
#[derive(Drop)]
pub struct ShortList<T, const CAP: usize> {
    places: [T; CAP],
    len: usize,
    ghost within: { len ≤ CAP },
}

impl<T: Copy, const CAP: usize> Clone for ShortList<T, CAP> {
    ghost is_clone = { λ list copy. copy ≡ list };

    ghost is_infallible = { λ _. ⊤ };

    fn clone(&self) -> Result<Self, AllocError> {
        Ok(*self)
    }
}

impl<T: Copy, const CAP: usize> Copy for ShortList<T, CAP> {}

impl<T, const CAP: usize> ShortList<T, CAP> {
    ghost use Rattle.carrier.specs.Listed.{listed};

    // The first of CAP places, as many as the length says.
    pub fn new(places: [T; CAP], len: usize) -> ShortList<T, CAP>
        ensures { listed result ≡ take len places }
    {
        ShortList {
            places,
            len: len.min(CAP),
        }
    }

    // Its entries, in order.
    pub fn as_slice(&self) -> &[T]
        ensures value { result.now ≡ listed self.now }
        ensures fits { length result.now ≤ CAP }
    {
        &self.places[..self.len]
    }
}

impl<T: Copy + Default + Drop, const CAP: usize> From<ArrayVec<T, CAP>> for ShortList<T, CAP> {
    ghost use Rattle.carrier.specs.Listed.{listed};

    ghost from_gives = { λ entries list. listed list ≡ entries.items };

    fn from(entries: ArrayVec<T, CAP>) -> Self {
        let len = entries.len();
        let mut places = [T::default(); CAP];
        places[..len].copy_from_slice(entries.as_slice());
        ShortList { places, len }
    }
}
