// The report of a query: the list that a caller lends, with the runs so far in front.
ghost use Rattle.std.specs.Prelude.{◌≡◌, Some as Just};
ghost use Rattle.moves.specs.Moves.{Joins};

use crate::answer::Ran;

/// A lent list of runs, and how many of it are reported. A run that finds no room is left out.
#[derive(Drop)]
pub struct Report<'a> {
    list: &'a mut [Ran],
    ran: usize,
}

impl<'a> Report<'a> {
    /// A report with no runs yet.
    pub fn new(list: &'a mut [Ran]) -> Report<'a>
        ensures list { result.list.now ≡ list.old }
        ensures count { result.ran ≡ 0 }
        ensures lent { result.list.ghost_name ≡ list.entry.ghost_name }
    {
        Report { list, ran: 0 }
    }

    /// How many runs are reported.
    pub fn len(&self) -> usize
        ensures { result ≡ self.now.ran }
    {
        self.ran // as many as found room
    }

    /// One more run, if there is room.
    pub fn push(&mut self, run: Ran)
        ensures { Joins (Just run) self.old self.new }
    {
        if self.ran < self.list.len() {
            self.list[self.ran] = run;
            self.ran += 1;
        }
    }
}
