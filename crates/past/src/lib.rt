// The past list: the newest entries of any kind, over places that the caller lends.
#![tactic(auto)]

ghost use Rattle.std.specs.Prelude.{◌≡◌, ◌<◌, ◌≤◌, [], ◌∷◌, length, reverse, take};
ghost use Rattle.std.specs.List.{slice_get};
ghost use Rattle.std.specs.Option.{option_map};

#[cfg(test)]
mod tests;

// Holds as many entries as it has places; a new one then takes the place of the oldest.
// It has no model: a view would hide the places, and by them the lender knows what its slice ends as.
#[derive(Drop)]
pub struct Past<'a, T> {
    places: &'a mut [T],
    // the first so many places hold an entry
    held: usize,
    // the place behind the newest entry; those from there on are older than those before it
    next: usize,
    ghost room: { held ≤ length places.now },
    ghost within: { next ≤ held },
    // until it has gone round, the next place is the first that holds none
    ghost round: { held < length places.now → next ≡ held },
}

// The i-th from the end, from 0, the last.
fn from_end<T>(xs: &[T], i: usize) -> Option<&T>
    ensures { option_map (λ x. x.now) result ≡ slice_get (reverse xs.now) i }
{
    xs.get(xs.len().checked_sub(1)?.checked_sub(i)?)
}

impl<'a, T: Drop> Past<'a, T> {
    ghost use Rattle.past.specs.Entries.{holding, empty, added};

    // No entries yet.
    pub fn new(places: &'a mut [T]) -> Past<'a, T>
        ensures { holding result ≡ empty places.entry }
    {
        Past {
            held: 0,
            next: 0,
            places,
        }
    }

    // The oldest goes if there is no place left for the new one.
    pub fn add(&mut self, x: T)
        ensures { holding self.new ≡ added (x ∷ []) (holding self.old) }
    {
        // at the end it begins again at the first place
        if self.next == self.places.len() {
            self.next = 0;
        }
        if self.next < self.places.len() {
            self.places[self.next] = x;
            self.next += 1;
            self.held = self.held.max(self.next);
        }
    }

    // The places that hold an entry.
    fn taken(&self) -> &[T]
        ensures { result.now ≡ take self.now.held self.now.places.now }
    {
        &self.places[..self.held]
    }

    // How many entries it holds.
    pub fn len(&self) -> usize
        ensures { result ≡ length (holding self.now).entries }
    {
        self.taken().len()
    }

    // The i-th entry, from 0, the newest.
    pub fn newest(&self, i: usize) -> Option<&T>
        ensures { option_map (λ x. x.now) result ≡ slice_get (holding self.now).entries i }
    {
        let (newer, older) = self.taken().split_at(self.next);
        if i < newer.len() {
            return from_end(newer, i);
        }
        from_end(older, i - newer.len())
    }
}

impl<'a, T: Copy> Past<'a, T> {
    ghost use Rattle.past.specs.Entries.{holding, empty, added};

    // A new list to which entries are added one by one: it holds the newest of them.
    pub fn of(places: &'a mut [T], xs: &[T]) -> Past<'a, T>
        ensures { holding result ≡ added xs.now (empty places.entry) }
    {
        let mut list = Past::new(places);
        list.add_all(xs);
        list
    }

    // Adds entries one by one, the last as the newest.
    pub fn add_all(&mut self, xs: &[T])
        ensures { holding self.new ≡ added xs.now (holding self.old) }
    {
        for x in xs {
            self.add(*x);
        }
    }
}
