// What a rebuilder keeps of one cell beside the values: the cells asked for, and which trace is the newest.
// Assumes nothing: a row carries in its type that its places are within its depth.
ghost use Rattle.std.specs.Prelude.{◌≡◌, ℕ, ◌<◌, ◌≤◌, length, slice_index_or, slice_set};
ghost use Rattle.rows.specs.Rings.{place_in, before, one_up};

use interfaces::asked::Asked;

/// The traces of one cell: a ring in which each trace stands before the one that is next older.
#[derive(Clone, Copy)]
pub struct Row<const D: usize> {
    asked: [Asked; D],
    newest: usize,
    count: usize,
    ghost round: { newest ≤ D },
    ghost few: { count ≤ D },
}

impl<const D: usize> Row<D> {
    /// The row of a cell of which nothing is remembered.
    pub fn new() -> Row<D>
        ensures { result.count ≡ 0 }
    {
        Row {
            asked: [Asked::new(&[]); D],
            newest: 0,
            count: 0,
        }
    }

    /// How many traces there are.
    pub fn count(&self) -> usize
        ensures { result ≡ self.now.count }
    {
        self.count
    }

    /// The place of the trace that is older than `age` others.
    pub fn place(&self, age: usize) -> usize
        requires { age < self.now.count }
        ensures within { result < D }
        ensures place { result ≡ place_in D self.now.newest age }
    {
        let ahead = D - self.newest;
        if age < ahead {
            self.newest + age
        } else {
            age - ahead
        }
    }

    /// What the trace at a place asked for.
    pub fn asked(&self, place: usize) -> &Asked
        requires { place < D }
        ensures { (d : Asked) → result.now ≡ slice_index_or self.now.asked place d }
    {
        &self.asked[place]
    }

    // Forgets every trace.
    pub(crate) fn clear(&mut self)
        ensures { self.new.count ≡ 0 }
    {
        self.count = 0;
    }

    // Puts one trace in front, and answers its place; at the full depth the oldest goes.
    pub(crate) fn push(&mut self, asked: Asked) -> usize
        ensures places { length self.old.asked ≡ D }
        ensures place { result ≡ before D self.old.newest }
        ensures newest { self.new.newest ≡ before D self.old.newest }
        ensures count { self.new.count ≡ one_up D self.old.count }
        ensures asked { self.new.asked ≡ slice_set self.old.asked (before D self.old.newest) asked }
    {
        if D == 0 {
            return 0;
        }
        let place = if self.newest == 0 {
            D - 1
        } else {
            self.newest - 1
        };
        self.asked[place] = asked;
        self.newest = place;
        if self.count < D {
            self.count += 1;
        }
        place
    }
}
