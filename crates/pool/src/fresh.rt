// The new strings of a text while it is read: parts of that text, and the room that is left for more.
ghost use Rattle.std.specs.Prelude.{◌≡◌, ◌+◌, ◌≤◌, length};
ghost use Rattle.arrayvec.specs.ArrayVec.{array_vec_len};
ghost use Rattle.fault.specs.Limits.{read_strings};
ghost use Rattle.pool.specs.Rooms.{left_of};

use arrayvec::ArrayVec;
use fault::limits::READ_STRINGS;
use words::Span;

// How many strings more, and with how many bytes together.
#[derive(Clone, Copy)]
pub struct Room {
    pub(crate) strings: usize,
    pub(crate) bytes: usize,
}

// The room is an Err once a string did not fit: what was left then.
#[derive(Drop)]
pub struct Fresh {
    pub(crate) spans: ArrayVec<Span, READ_STRINGS>,
    pub(crate) room: Result<Room, Room>,
    ghost few: { array_vec_len spans + (left_of room).strings ≤ read_strings },
}
