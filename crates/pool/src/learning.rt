// Numbers for strings, old and new.
ghost use Rattle.std.specs.Prelude.{◌≡◌, ℕ, ◌+◌, ◌<◌, List, ◌++◌, map, IfSome, is_err};
ghost use Rattle.fault.specs.Limits as limits;
ghost use Rattle.listing.specs.Seen.{part, value_in};
ghost use Rattle.pool.specs.Strings.{position, parts, numbered};
ghost use Rattle.pool.specs.Learning.{learned_of, nothing_learned, learn_string, learn_value, learn_row, cell_of, strings_of, room_after};

use crate::find::find_in;
use crate::fresh::{Fresh, Room};
use crate::known::Known;
use arrayvec::ArrayVec;
use fault::limits::{COLUMNS, READ_BYTES, READ_STRINGS};
use lines::shown::part;
use listing::Cell;
use words::Span;

// A text, and the strings that have a number before it is read.
#[derive(Clone, Copy)]
pub struct Source<'a> {
    pub text: &'a [u8],
    pub known: Known<'a>,
}

impl Room {
    // What a string leaves of the room, if it fits.
    pub(crate) fn after(self, string: &[u8]) -> Option<Room>
        ensures { result ≡ room_after self string.now }
    {
        Some(Room {
            strings: self.strings.checked_sub(1)?,
            bytes: self.bytes.checked_sub(string.len())?,
        })
    }
}

impl Fresh {
    // No new string yet, and the room that the strings read before leave.
    pub fn new(strings: usize, bytes: usize) -> Fresh
        ensures { (text : List ℕ) → learned_of text result ≡ nothing_learned strings bytes }
    {
        Fresh {
            spans: ArrayVec::new(),
            room: Ok(Room {
                strings: READ_STRINGS.saturating_sub(strings),
                bytes: READ_BYTES.saturating_sub(bytes),
            }),
        }
    }

    // Whether there ever was too little room.
    pub fn is_over(&self) -> bool
        ensures { result ≡ is_err self.now.room }
    {
        self.room.is_err()
    }

    // The number of a string: among the known ones, then among the new ones of the text.
    fn number(&self, source: Source<'_>, wanted: &[u8]) -> Option<usize>
        ensures value { result ≡ position (strings_of source.entry self.now) wanted.now }
        ensures small { IfSome result (λ n. n < 1 + limits.literals + limits.read_strings + limits.read_strings) }
    {
        let known = source.known;
        if let Some(number) = known.number(wanted) {
            return Some(number);
        }
        let i = find_in(source.text, self.spans.as_slice(), wanted)?;
        Some(1 + known.literals.len() + known.entries.len() + i)
    }

    // A string of the text: nothing to learn if it has a number, else one new string while there is room.
    // What is left stays as it is from the first one on that does not fit.
    fn learn(&mut self, source: Source<'_>, span: Span)
        ensures { learned_of source.entry.text.now self.new ≡ learn_string (numbered source.entry.known) (learned_of source.entry.text.now self.old) (part source.entry.text.now span) }
    {
        let Ok(room) = self.room else {
            return;
        };
        let wanted = part(span, source.text);
        if self.number(source, wanted).is_some() {
            return;
        }
        self.room = room.after(wanted).ok_or(room);
        if self.room.is_ok() {
            self.spans.push(span);
        }
    }

    // A cell of the text: only strings are learned.
    fn learn_cell(&mut self, source: Source<'_>, cell: Cell)
        ensures { learned_of source.entry.text.now self.new ≡ learn_value (numbered source.entry.known) (learned_of source.entry.text.now self.old) (value_in source.entry.text.now cell) }
    {
        if let Cell::String(span) = cell {
            self.learn(source, span);
        }
    }

    // The cells of a row, one by one.
    pub fn learn_row(&mut self, source: Source<'_>, cells: &[Cell])
        ensures { learned_of source.entry.text.now self.new ≡ learn_row (numbered source.entry.known) (learned_of source.entry.text.now self.old) (map (value_in source.entry.text.now) cells.now) }
    {
        for cell in cells {
            self.learn_cell(source, *cell);
        }
    }

    // The cell of a value: an integer, 0 or 1, or the number of a string. Every string of a text that was learned has one.
    fn cell_of(&self, source: Source<'_>, cell: Cell) -> i64
        ensures { result ≡ cell_of (strings_of source.entry self.now) (value_in source.entry.text.now cell) }
    {
        match cell {
            Cell::Integer(number) => number,
            Cell::Boolean(truth) => i64::from(truth),
            Cell::String(span) => {
                let number = self.number(source, part(span, source.text));
                number.unwrap_or(0) as i64
            }
        }
    }

    // The cells of a row, all of them; the first ones are its values.
    pub fn row_of(&self, source: Source<'_>, cells: &[Cell; COLUMNS]) -> [i64; COLUMNS]
        ensures { result ≡ map (λ c. cell_of (strings_of source.entry self.now) (value_in source.entry.text.now c)) cells.now }
    {
        cells.map(|cell| self.cell_of(source, cell))
    }
}
