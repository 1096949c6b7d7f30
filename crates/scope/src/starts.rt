// Where the lists of a chain begin, the outermost first: at most `DEPTH` of them.
// A twin of `Schema` for the same reason, since no generic struct holds an array of its type parameter.
ghost use Rattle.std.specs.Prelude.{◌≡◌, ◌≤◌, length};
ghost use Rattle.fault.specs.Limits.{depth};

use fault::limits::DEPTH;

#[derive(Clone, Copy)]
pub struct Starts {
    pub(crate) at: [usize; DEPTH],
    pub(crate) len: usize,
    ghost room: { length at ≡ depth },
    ghost few: { len ≤ depth },
}
