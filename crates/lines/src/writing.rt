// A line that is written at the start of a buffer, which the host lends, so that a line is no `Vec`. The bytes behind it stay as they were.
ghost use Rattle.std.specs.Prelude.{◌≡◌, ◌+◌, ◌≤◌, [], ◌∷◌, length};
ghost use Rattle.std.specs.Fmt.{signed_decimal};
ghost use Rattle.texts.specs.Lines.{string_bytes};
ghost use Rattle.lines.specs.Buffers.{Adds, HasRoom, value_room};

use itoa::Buffer;

#[derive(Drop)]
pub(crate) struct Line<'a> {
    pub(crate) buffer: &'a mut [u8],
    pub(crate) length: usize,
}

impl<'a> Line<'a> {
    // An empty line.
    pub(crate) fn new(buffer: &'a mut [u8]) -> Line<'a>
        ensures same_reference { result.buffer.ghost_name ≡ buffer.entry.ghost_name }
        ensures bytes { result.buffer.now ≡ buffer.old }
        ensures empty { result.length ≡ 0 }
    {
        Line { buffer, length: 0 }
    }

    // One byte behind the line.
    pub(crate) fn put(&mut self, b: u8)
        requires { HasRoom 1 self.old }
        ensures { Adds (b ∷ []) self.old self.new }
    {
        self.buffer[self.length] = b;
        self.length += 1;
    }

    // Some bytes behind the line.
    pub(crate) fn put_all(&mut self, bytes: &[u8])
        requires { HasRoom (length bytes.now) self.old }
        ensures { Adds bytes.now self.old self.new }
    {
        let end = self.length + bytes.len();
        self.buffer[self.length..end].copy_from_slice(bytes);
        self.length = end;
    }

    // A string in quotes.
    pub(crate) fn put_string(&mut self, bytes: &[u8])
        requires { HasRoom (length bytes.now + 2) self.old }
        ensures { Adds (string_bytes bytes.now) self.old self.new }
    {
        self.put(b'"');
        self.put_all(bytes);
        self.put(b'"');
    }

    // A number in decimal digits, with a minus before one below zero.
    pub(crate) fn put_integer(&mut self, value: i64)
        requires { HasRoom value_room self.old }
        ensures bytes { Adds (signed_decimal value) self.old self.new }
        ensures short { length (signed_decimal value) ≤ value_room }
    {
        // one digit costs less than the buffer that many are made in
        if value >= 0 && value < 10 {
            return self.put(b'0' + value as u8);
        }
        let mut digits = Buffer::new();
        self.put_all(digits.format(value).as_bytes());
    }
}
