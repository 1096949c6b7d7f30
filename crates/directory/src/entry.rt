// What the packed and the chained store keep of a table: where its first cell is, how wide it is and how many rows it has.
// What `first` counts is the store's own affair: a place in a run, or a link.
ghost use Rattle.std.specs.Prelude.{◌≡◌};
ghost use Rattle.directory.specs.Run.{extent_of};

#[derive(Clone, Copy, Debug, PartialEq, Eq)]
pub struct Entry {
    pub first: u16,
    pub width: u16,
    pub count: u16,
}

impl Entry {
    // How many cells the table uses.
    pub fn cells(self) -> usize
        ensures { result ≡ extent_of self }
    {
        self.count as usize * self.width as usize
    }
}
