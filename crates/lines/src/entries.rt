// Lines of entries, as headings and rows are: `(`, the entries with commas between them, `)` and the line feed.
ghost use Rattle.std.specs.Prelude.{◌≡◌, ℕ, ◌+◌, ◌*◌, ◌≤◌, List, length};
ghost use Rattle.texts.specs.Lines.{line_bytes};
ghost use Rattle.lines.specs.Buffers.{Adds, HasRoom};

use crate::writing::Line;

// Who writes the entries of a line: the bytes of each, and the most that one has.
pub(crate) trait Entries<T> {
    ghost text: { Self → T → List ℕ };

    ghost room: { ℕ };

    fn put(&self, line: &mut Line<'_>, entry: &T)
        requires { HasRoom room line.old }
        ensures bytes { Adds (text self.now entry.now) line.old line.new }
        ensures short { length (text self.now entry.now) ≤ room };
}

impl<'a> Line<'a> {
    pub(crate) fn put_entries<T, W: Entries<T>>(&mut self, writer: &W, entries: &[T])
        requires { HasRoom (length entries.now * (W.room + 1) + 3) self.old }
        ensures bytes { Adds (line_bytes (W.text writer.now) entries.now) self.old self.new }
        ensures short { length (line_bytes (W.text writer.now) entries.now) ≤ length entries.now * (W.room + 1) + 3 }
    {
        self.put(b'(');
        let mut separator: &[u8] = b"";
        for entry in entries {
            self.put_all(separator);
            writer.put(self, entry);
            separator = b",";
        }
        self.put_all(b")\n");
    }
}
