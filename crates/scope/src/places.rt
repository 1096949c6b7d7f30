// Where a name was found: how many lists lie further in, where in its list it stands, and where among all entries.
#[derive(Clone, Copy, Debug, PartialEq, Eq)]
pub struct Place {
    pub distance: usize,
    pub position: usize,
    pub number: usize,
}
